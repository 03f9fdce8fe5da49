// The demands, theorems alone: document 01, "How far the promises reach". Demand 2: every list of calls from a fresh card and a
// filled tree is answered as a plain queue answers it, and leaves card and tree good.
//
// Stands on the definitions and laws of `card`, `rack`, `world` and `served`.
#![tactic(auto)]
