// Root and fetched words in the scratch of one way: document 01, "Finish takes the fetched words in list order".
//
// A scratch is a lent slice of words, four to a record: the root's R slots, then Z for each level down to the leaf. Each
// function that writes promises every word of the slice. Stands on `record`, `path` and the definitions of `way`.
#![tactic(auto)]

ghost use Rattle.std.specs.Prelude.{◌≡◌, ◌++◌, ◌+◌, ◌*◌, ◌-◌, ◌≤◌, length, take, drop};
ghost use Rattle.record.specs.Words.{records};
ghost use Rattle.gather.specs.Laid.{laid_over, SiblingsLoaded};
ghost use Rattle.gather.specs.Shown.{slots_shown};

use path::{ROOT_PLACES, Sizes};
use record::{RECORD_WORDS, Record, copy_words};

// For crates above: n records of `src` from place `from` on, to place `at` of `w` and on. Words are copied, not records
// read: what a record means is nothing to a copy.
pub fn copy(w: &mut [u64], at: usize, src: &[u64], from: usize, n: usize)
    requires { (4 * (at + n) ≤ length w.old) × (4 * (from + n) ≤ length src.now) }
    ensures { w.new ≡ laid_over w.old at (take n (drop from (records src.now))) }
{
    let to = RECORD_WORDS * at;
    let first = RECORD_WORDS * from;
    let count = RECORD_WORDS * n;
    copy_words(w, to, src, first, count);
}

// For crates above: the root's r slots at the head of the scratch.
pub fn load_root(w: &mut [u64], root: [Record; ROOT_PLACES], r: usize)
    requires { (r ≤ 64) × (4 * r ≤ length w.old) }
    ensures { w.new ≡ laid_over w.old 0 (take r root) }
{
    for (i, record) in root[..r].iter().enumerate() {
        record.write(w, i);
    }
}

// For crates above: the root's slots from the head of the scratch back among the card's 64; those past r stay.
pub fn save_root(w: &[u64], root: [Record; ROOT_PLACES], r: usize) -> [Record; ROOT_PLACES]
    requires { (r ≤ 64) × (4 * r ≤ length w.now) }
    ensures { result ≡ take r (records w.now) ++ drop r root }
{
    let mut saved = root;
    for (i, slot) in saved[..r].iter_mut().enumerate() {
        *slot = Record::read(w, i);
    }
    saved
}

// For crates above: the slots of `count` whole buckets, from the `from`-th of the fetched words on, to place `at` and on.
// Their least records stay behind: a way has slots only.
pub fn load_slots(w: &mut [u64], at: usize, words: &[u64], from: usize, count: usize, z: usize)
    requires { (z ≤ 5) × ((4 * (at + z * count) ≤ length w.old) × (4 * ((from + count) * (z + 1)) ≤ length words.now)) }
    ensures { w.new ≡ laid_over w.old at (slots_shown z words.now from count) }
{
    for i in 0..count {
        let first = (from + i) * (z + 1) + 1;
        copy(w, at + z * i, words, first, z);
    }
}

// For crates above: the slots of a path's h buckets, from the `from`-th on, behind the root's. The root's slots stay, as
// they must for Insert's second path.
pub fn load_path(w: &mut [u64], words: &[u64], from: usize, sizes: Sizes)
    requires { (sizes.z ≤ 5) × ((4 * (sizes.r + sizes.z * sizes.h) ≤ length w.old) × (4 * ((from + sizes.h) * (sizes.z + 1)) ≤ length words.now)) }
    ensures { w.new ≡ laid_over w.old sizes.r (slots_shown sizes.z words.now from sizes.h) }
{
    let r = sizes.r as usize;
    let h = sizes.h as usize;
    let z = sizes.z as usize;
    load_slots(w, r, words, from, h, z);
}

// For crates above: the least records of a path's siblings at levels `level` to h, which stand behind `whole` whole
// buckets and `skip` siblings. Level d's goes to place d - 1, whatever the first level is: one path fetches its
// siblings from level 1 on, each of Insert's two from level 2 on. The words moved are counted with each: it was fetched.
// Kept: one copy of them all would be no plainer count of what is handled.
pub fn load_siblings(
    sibs: &mut [u64],
    words: &[u64],
    whole: usize,
    skip: usize,
    level: usize,
    sizes: Sizes,
) -> u64
    requires z_bound { (sizes.z ≤ 5) × ((1 ≤ level) × ((level ≤ sizes.h + 1) × (4 * sizes.h ≤ length sibs.old))) }
    requires level_in_bounds { 4 * (whole * (sizes.z + 1) + skip + (sizes.h + 1 - level)) ≤ length words.now }
    ensures { SiblingsLoaded sizes.z words.now whole skip level (sizes.h + 1 - level) sibs.old sibs.new result }
{
    let from = whole * (sizes.z as usize + 1) + skip;
    let mut moved = 0;
    for i in 0..sizes.h as usize + 1 - level {
        copy(sibs, level - 1 + i, words, from + i, 1);
        moved += RECORD_WORDS as u64;
    }
    moved
}
