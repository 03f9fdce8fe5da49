// The look at what a finish fetched: document 01, "Refusal numbers", Damaged, its first three clauses. What card and fetched
// words show is laid in the scratches of the work and looked at; no word is written.
// Stands on `settle`, `shown`, `damage` and what is below.
#![tactic(auto)]

ghost use Rattle.std.specs.Prelude.{◌≡◌, cond, Ok};
ghost use Rattle.settle.specs.Settled.{unsettled};
ghost use Rattle.look.specs.Look.{PathLookRoom, PathLooks, PairLookRoom, PairLooks};

use parts::Parts;
use path::ROOT_PLACES;
use record::{Leaf, RECORD_WORDS, Record};
use settle::{Damaged, SIBLINGS_MOST, WAYS_MOST, path_words, way_words};

// What a look tells: the words moved for the siblings, and whether what was fetched is fit for the work or Damaged.
#[derive(Clone, Copy)]
pub struct Looked {
    pub moved: u64,
    pub fit: Result<(), Damaged>,
}

// The words moved are told whether it is Damaged or not.
fn told(moved: u64, damaged: bool) -> Looked
    ensures { result ≡ record { moved = moved; fit = cond damaged unsettled (Ok tt) } }
{
    Looked {
        moved,
        fit: if damaged { Err(Damaged) } else { Ok(()) },
    }
}

// For crates above: the one path of ExtractMin and Delete. The way is left in `w` and its siblings in `sibs`, for the work.
pub fn look_path(
    words: &[u64],
    w: &mut [u64],
    sibs: &mut [u64],
    root: [Record; ROOT_PLACES],
    parts: Parts,
    leaf: Leaf,
) -> Looked
    requires { PathLookRoom parts.sizes leaf words.now w.old sibs.old }
    ensures { PathLooks parts root words.now leaf w.new sibs.new result }
{
    let sizes = parts.sizes;
    let moved = shown::show_path(w, sibs, root, words, sizes);
    let buckets = path_words(sizes);
    let path_bad = damage::path_damaged(
        &words[0..buckets],
        sibs,
        w,
        sizes,
        leaf,
        parts.rule(),
        parts.least,
    );
    told(moved, path_bad)
}

// For crates above: Insert's two paths. The first path's way is left in `w` and its siblings in `beside`, for the work; the
// second path's siblings, and the slots of both paths together, are needed here alone.
pub fn look_pair(
    words: &[u64],
    w: &mut [u64],
    beside: &mut [u64],
    root: [Record; ROOT_PLACES],
    parts: Parts,
    first: Leaf,
    second: Leaf,
) -> Looked
    requires { PairLookRoom parts.sizes first second words.now w.old beside.old }
    ensures { PairLooks parts root words.now first second w.new beside.new result }
{
    let sizes = parts.sizes;
    let h = sizes.h as usize;
    let both = way_words(sizes, 2 * h);
    let siblings = RECORD_WORDS * h;
    let mut slots = [0u64; WAYS_MOST];
    let mut sibs = [0u64; SIBLINGS_MOST];
    let all = &mut slots[0..both];
    let others = &mut sibs[0..siblings];
    let moved = shown::show_pair(w, beside, others, all, root, words, sizes);
    let half = path_words(sizes);
    let whole = half + half;
    let pair_bad = damage::pair_damaged(
        &words[0..half],
        &words[half..whole],
        beside,
        others,
        all,
        sizes,
        first,
        second,
        parts.rule(),
        parts.least,
    );
    told(moved, pair_bad)
}
