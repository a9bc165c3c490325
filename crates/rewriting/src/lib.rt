#![tactic(auto)]

// What a rewriting makes of a table, and what is proved of it. No code rewrites yet.
