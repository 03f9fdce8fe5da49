// The paper's table, one theorem alone: document 01, "Marked P1 to P9 in line order", and P10 to P12.
//
// Stands on the definitions that the promises of `replies` cite, and of the crates below it.
#![tactic(auto)]
