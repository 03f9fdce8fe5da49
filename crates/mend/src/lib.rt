// Least records: document 01, "Least records of the evicted paths are then worked out from the leaf up, the root last".
//
// The buckets of a path are prepared in a scratch, and copied into the fetched words once the verdict is known: the card
// that would come out may be a BadCard, and then no word may change. Stands on `record`, `path`, `least` and `writing`.
#![tactic(auto)]

mod mending;

pub use mending::mend_path;
