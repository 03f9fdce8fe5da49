// A round with an honest rack, theorems alone: which numbers it can give.
//
// Stands on the definitions of `rounds` and on the laws of `world` and `served`.
#![tactic(auto)]
