#![tactic(auto)]

// The definitions of tables, and what is proved of them.
