// The heap on buckets, theorems alone: what the card holds and what the rack holds are one Tree, what is fetched is the
// Tree's way, and what a finish leaves is laid back into it. Document 01, "A request, step by step".
//
// Stands on the definitions and laws of `record`, `path`, `way`, `gather`, `mend`, `work`, `pair` and `rack`.
#![tactic(auto)]
