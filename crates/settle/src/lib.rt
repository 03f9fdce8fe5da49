// What every finish on the card's parts hands back, the length of its scratches, and the judgement of the card that would come
// out. Each finish looks at what was fetched, works all out in scratches, judges, and only then writes a word: document 01,
// "card and lent slices are as before" where it is Damaged. Stands on `judge` and `gather`, and on the definitions of `work`
// and `damage`.
#![tactic(auto)]

ghost use Rattle.std.specs.Prelude.{◌≡◌, ◌+◌, ◌*◌, ◌≤◌};
ghost use Rattle.path.specs.Layout.{bucket_words};
ghost use Rattle.judge.specs.BadParts.{bad_parts};
ghost use Rattle.path.specs.Cut.{Cut};
ghost use Rattle.settle.specs.Settled.{judged};

use parts::Parts;
use path::{HEIGHT_MOST, ROOT_PLACES, ROOT_WORDS, SLOTS_MOST, Sizes, bucket_words};
use record::{RECORD_WORDS, Record};

// What a finish makes of the card's parts, whether a record was found to remove, and the words moved.
#[derive(Clone, Copy)]
pub struct Settled {
    pub root: [Record; ROOT_PLACES],
    pub least: Record,
    pub c: u64,
    pub found: bool,
    pub moved: u64,
}

// Why a finish is not done: what was fetched, or the card that would come out, is not as it must be. The parts stay as they
// came, and so do the words.
#[derive(Clone, Copy, PartialEq, Eq)]
pub struct Damaged;

// The longest scratches, for sizes at the top of their ranges: a way's slots, with one path's or both; a path's siblings;
// a path's buckets.
pub const WAY_MOST: usize = ROOT_WORDS + RECORD_WORDS * (SLOTS_MOST * HEIGHT_MOST) as usize;

pub const WAYS_MOST: usize = ROOT_WORDS + 2 * RECORD_WORDS * (SLOTS_MOST * HEIGHT_MOST) as usize;

pub const SIBLINGS_MOST: usize = RECORD_WORDS * HEIGHT_MOST as usize;

pub const PATH_MOST: usize = RECORD_WORDS * (HEIGHT_MOST * (SLOTS_MOST + 1)) as usize;

// For crates above: the words of a scratch with the root's slots and those of so many buckets.
pub fn way_words(sizes: Sizes, buckets: usize) -> usize
    requires { (Cut sizes) × (buckets ≤ 32) }
    ensures { (result ≡ 4 * (sizes.r + sizes.z * buckets)) × (result ≤ 256 + 20 * buckets) }
{
    let r = sizes.r as usize;
    let z = sizes.z as usize;
    RECORD_WORDS * (r + z * buckets)
}

// For crates above: the words of a path's whole buckets.
pub fn path_words(sizes: Sizes) -> usize
    requires { Cut sizes }
    ensures { (result ≡ sizes.h * bucket_words sizes.z) × (result ≤ 384) }
{
    sizes.h as usize * bucket_words(sizes.z)
}

// "or the card that would come out is a BadCard"; no request waits on it.
fn comes_out_bad(root: [Record; ROOT_PLACES], parts: Parts) -> bool
    ensures { result ≡ bad_parts parts root }
{
    let mut places = [0u64; ROOT_WORDS];
    gather::load_root(&mut places, root, ROOT_PLACES);
    judge::are_parts_bad(&places, parts)
}

// For crates above: what would come out of a finish of one request more; or, where that is a BadCard, Damaged.
pub fn judged(parts: Parts, next: Settled) -> Result<Settled, Damaged>
    requires { parts.t ≤ 4294967295 }
    ensures { result ≡ judged parts next }
{
    let next_parts = Parts {
        t: parts.t + 1,
        c: next.c,
        least: next.least,
        ..parts
    };
    if comes_out_bad(next.root, next_parts) {
        return Err(Damaged);
    }
    Ok(next)
}
