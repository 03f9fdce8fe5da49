// Eviction along one way: document 01, "Eviction goes from the leaf's bucket up to level 1. For each dummy slot, lowest
// first, it moves in the first record found from the root downwards, slots ascending, that stands at a smaller level and
// whose own path holds this bucket. The place left becomes the dummy."
//
// A way is a lent slice of words, four to a record and exactly as long as the way: the root's slots, then those of each
// level down to the leaf. Nothing stands behind the last slot, so what is promised of the records is promised of every
// word (proofs/WayLaws.antt). Stands on `record` and `path`.
#![tactic(auto)]

ghost use Rattle.std.specs.Prelude.{◌≡◌, ◌+◌, ◌*◌, ◌≤◌, ◌<◌, length};
ghost use Rattle.record.specs.Words.{records};
ghost use Rattle.way.specs.Evict.{seek, placed, fits, pull, pulls, evict};

use path::Sizes;
use record::{Leaf, Record};

// The first of the first lo places whose record may move to this level; `None` if there is none. This is the inner loop of
// all the work: two paths hold one bucket when their leaves agree after one shift, which is the same for every record,
// and whether a record is the dummy is asked only of those that agree.
fn first_fit(w: &[u64], lo: usize, sizes: Sizes, leaf: Leaf, level: u64) -> Option<usize>
    requires { (4 * lo ≤ length w.now) × ((level ≤ sizes.h) × (sizes.h < 64)) }
    ensures { result ≡ placed lo (seek (fits sizes.h leaf level) lo (records w.now)) }
{
    let below = sizes.h - level;
    let want = leaf.0 >> below;
    (0..lo).find(|&i| {
        let found = Record::read(w, i);
        found.label.0 >> below == want && !found.is_dummy()
    })
}

// A dummy slot takes the first record that fits from the places before lo; any other slot is left as it is.
fn pull(w: &mut [u64], lo: usize, place: usize, sizes: Sizes, leaf: Leaf, level: u64)
    requires lo_in_bounds { (4 * lo ≤ length w.old) × (4 * place + 4 ≤ length w.old) }
    requires level_le_h { (level ≤ sizes.h) × (sizes.h < 64) }
    ensures { records w.new ≡ pull (fits sizes.h leaf level) lo place (records w.old) }
{
    if !Record::read(w, place).is_dummy() {
        return;
    }
    if let Some(from) = first_fit(w, lo, sizes, leaf, level) {
        let found = Record::read(w, from);
        found.write(w, place);
        Record::DUMMY.write(w, from);
    }
}

// The slots of one level, lowest first. They stand from place lo on, behind those of all smaller levels.
fn fill_level(w: &mut [u64], lo: usize, sizes: Sizes, leaf: Leaf, level: u64)
    requires { (4 * (lo + sizes.z) ≤ length w.old) × ((level ≤ sizes.h) × (sizes.h < 64)) }
    ensures { records w.new ≡ pulls (fits sizes.h leaf level) lo sizes.z (records w.old) }
{
    for k in 0..sizes.z as usize {
        pull(w, lo, lo + k, sizes, leaf, level);
    }
}

// For crates above: the eviction of a whole way. From the leaf up, so that a place left at one level is filled again
// from above when that level's turn comes. In its turn a level has `above` levels and the root before it.
#[tactic(auto, using(crate::proofs::EvictLaws::level_room))]
pub fn evict(w: &mut [u64], sizes: Sizes, leaf: Leaf)
    requires { (sizes.h < 64) × (length w.old ≡ 4 * (sizes.r + sizes.z * sizes.h)) }
    ensures { records w.new ≡ evict sizes.h sizes.z sizes.r leaf (records w.old) }
{
    for above in (0..sizes.h).rev() {
        let lo = sizes.r + sizes.z * above;
        fill_level(w, lo as usize, sizes, leaf, above + 1);
    }
}
