// Card and rack through a run, theorems alone: document 01, "A request, step by step". A card that goes in good, with a tree
// that holds its heap, comes out good with the live events that the request leaves, whatever the request; no call meets a
// BadCard, and no finish finds anything Damaged.
//
// Stands on the definitions and laws of `card`, `world`, `good` and of the crates below them.
#![tactic(auto)]
