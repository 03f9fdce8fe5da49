// Card and rack, and what a driver holds between two calls, theorems alone: document 01, "A request, step by step". What each call
// makes of them is defined here once, for demand 2, demand 3 and the desk; the contracts leave this outcome and no other.
//
// Stands on the definitions and laws of `card` and `rack`.
#![tactic(auto)]
