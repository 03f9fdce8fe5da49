// The desk with its own rack, theorems alone: what it says to each line is what the plain queue says.
//
// Stands on the definitions of `steps` and `lines`, and on the laws of `honest` and `demands`.
#![tactic(auto)]
