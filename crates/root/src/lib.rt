// The root's slots, as a lent slice of words, four to a slot: what BadCard and Overflow ask of them (document 01,
// "Refusal numbers"), and the slot that an Insert takes. Stands on `record` and the definitions of `way`.
#![tactic(auto)]

ghost use Rattle.std.specs.Prelude.{◌≡◌};
ghost use Rattle.record.specs.Standing.{is_dummy};
ghost use Rattle.record.specs.Many.{every};
ghost use Rattle.record.specs.Words.{records};
ghost use Rattle.way.specs.Evict.{seek, placed};
ghost use Rattle.root.specs.Root.{slots_fine, root_full};

use record::{RECORD_WORDS, Record, Rule};

// For crates above: one pass over the slots. Each may stand, no record comes before `least`, and at most `live` are records.
pub fn slots_fine(slots: &[u64], rule: Rule, least: Record, live: u64) -> bool
    ensures { result ≡ slots_fine rule least live (records slots.now) }
{
    let mut count = 0;
    for i in 0..slots.len() / RECORD_WORDS {
        let x = Record::read(slots, i);
        if !x.is_dummy() {
            if !x.is_proper(rule) || !least.no_later(x) {
                return false;
            }
            count += 1;
        }
    }
    count <= live
}

// For crates above: whether all places are the dummy.
pub fn all_dummies(places: &[u64]) -> bool
    ensures { result ≡ every is_dummy (records places.now) }
{
    (0..places.len() / RECORD_WORDS).all(|i| Record::read(places, i).is_dummy())
}

// For crates above: the lowest of the first n slots that is the dummy; `None` if none is.
pub fn lowest_dummy(slots: &[u64], n: usize) -> Option<usize>
    ensures { result ≡ placed n (seek is_dummy n (records slots.now)) }
{
    (0..n.min(slots.len() / RECORD_WORDS)).find(|&place| Record::read(slots, place).is_dummy())
}

// For crates above: "every root slot real".
pub fn all_real(slots: &[u64], n: usize) -> bool
    ensures { result ≡ root_full n (records slots.now) }
{
    lowest_dummy(slots, n).is_none()
}
