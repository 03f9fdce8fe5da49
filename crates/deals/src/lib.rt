// Demand 3, theorems alone: document 01, "How far the promises reach". Of two sequences of the same kinds and eviction leaves, the
// labels of the first can be dealt again to the second's insertions so that the rack sees the same lists.
//
// Stands on the definitions and laws of `card`, `rack`, `world` and `demands`.
#![tactic(auto)]
