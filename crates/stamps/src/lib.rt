// Stamps that stand twice: document 01, "two slots that are not dummies, root included, share a stamp". The slots are lent as
// words, four to a record. Stands on `record`.
#![tactic(auto)]

ghost use Rattle.std.specs.Prelude.{◌≡◌, not, drop};
ghost use Rattle.record.specs.Words.{records};
ghost use Rattle.record.specs.Many.{every, bears, stamp_twice};

use record::{RECORD_WORDS, Record, Stamp};

// Whether a record other than the dummy has this stamp, from a place on. The stamp is looked at first: it tells nearly
// all of them apart, and a dummy's 0 is a stamp like any other.
fn is_borne(w: &[u64], from: usize, stamp: Stamp) -> bool
    ensures { result ≡ not (every (λ y. not (bears stamp y)) (drop from (records w.now))) }
{
    for i in from..w.len() / RECORD_WORDS {
        let other = Record::read(w, i);
        if other.stamp == stamp && !other.is_dummy() {
            return true;
        }
    }
    false
}

// For crates above: whether two records other than the dummy have one stamp.
pub fn stamp_twice(w: &[u64]) -> bool
    ensures { result ≡ stamp_twice (records w.now) }
{
    for i in 0..w.len() / RECORD_WORDS {
        let one = Record::read(w, i);
        if !one.is_dummy() && is_borne(w, i + 1, one.stamp) {
            return true;
        }
    }
    false
}
