// A record found in a way and cleared there: document 01, "Delete does so with the record that has this label and stamp, or
// answers Absent and removes nothing", which is what ExtractMin does too, before the path is evicted.
//
// A way is a lent slice of words, four to a record. Stands on `record`, the definitions of `way` and those of `gather`.
#![tactic(auto)]

ghost use Rattle.std.specs.Prelude.{◌≡◌, length};
ghost use Rattle.record.specs.Words.{records};
ghost use Rattle.way.specs.Evict.{seek, placed};
ghost use Rattle.clearing.specs.Removal.{named, Cleared};

use record::{Leaf, RECORD_WORDS, Record, Stamp};

// "the record that has this label and stamp". Stamps differ most, so they are looked at first; the dummy has label and
// stamp 0, and is no record.
#[tactic(auto, unfolding(crate::specs::Removal::named))]
fn is_named(record: Record, label: Leaf, stamp: Stamp) -> bool
    ensures { result ≡ named label stamp «record» }
{
    record.stamp == stamp && record.label == label && !record.is_dummy()
}

// For crates above: the place of the first record of this label and stamp; `None` if there is none.
pub fn find(w: &[u64], label: Leaf, stamp: Stamp) -> Option<usize>
    ensures { result ≡ placed (length (records w.now)) (seek (named label stamp) (length (records w.now)) (records w.now)) }
{
    (0..w.len() / RECORD_WORDS).find(|&i| is_named(Record::read(w, i), label, stamp))
}

// For crates above: the record of this label and stamp replaced by the dummy, all four words of it, or nothing changed;
// and whether it was there.
pub fn clear(w: &mut [u64], label: Leaf, stamp: Stamp) -> bool
    ensures { Cleared (named label stamp) w.old w.new result }
{
    let found = find(w, label, stamp);
    if let Some(i) = found {
        Record::DUMMY.write(w, i);
    }
    found.is_some()
}
