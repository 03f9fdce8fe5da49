// A good heap, theorems alone: each live event stands in exactly one slot, on the way to its leaf, nothing else stands in
// any slot, and every least record is true. Document 01, "Records and numbering". The work of a finish keeps it so, and a
// good heap is never found Damaged.
//
// Stands on the definitions and laws of `tree` and of the crates below it.
#![tactic(auto)]
