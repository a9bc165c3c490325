#![tactic(auto)]

// Lists of calls, and the promises over them. The contract of the table's encoding names them.
