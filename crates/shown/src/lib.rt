// What card and fetched words show, in scratches: document 01, "Finish takes the fetched words in list order." Each
// function answers the words moved for the siblings that it looked at. Stands on `record`, `path` and `gather`.
#![tactic(auto)]

ghost use Rattle.std.specs.Prelude.{◌≡◌};
ghost use Rattle.record.specs.Words.{records};
ghost use Rattle.gather.specs.Shown.{way_shown};
ghost use Rattle.shown.specs.WayRoom.{WayRoom};
ghost use Rattle.shown.specs.PathShown.{PathRoom, PathShown};
ghost use Rattle.shown.specs.PairShown.{SiblingRoom, SiblingsBelow, PairShownRoom, PairShown};

use path::{ROOT_PLACES, Sizes};
use record::Record;

// The root's slots, and behind them those of the first n whole buckets of the fetched words.
fn show_way(w: &mut [u64], root: [Record; ROOT_PLACES], words: &[u64], n: usize, sizes: Sizes)
    requires { WayRoom sizes n words.now w.old }
    ensures { records w.new ≡ way_shown n sizes.z sizes.r root words.now 0 }
{
    let r = sizes.r as usize;
    gather::load_root(w, root, r);
    gather::load_slots(w, r, words, 0, n, sizes.z as usize);
}

// For crates above: the way of ExtractMin's or Delete's path, and its siblings' least records from level 1 on.
pub fn show_path(
    w: &mut [u64],
    sibs: &mut [u64],
    root: [Record; ROOT_PLACES],
    words: &[u64],
    sizes: Sizes,
) -> u64
    requires { PathRoom sizes words.now w.old sibs.old }
    ensures { PathShown sizes root words.now w.new sibs.new result }
{
    let h = sizes.h as usize;
    show_way(w, root, words, h, sizes);
    gather::load_siblings(sibs, words, h, 0, 1, sizes)
}

// One of an Insert's paths' siblings from level 2 on, `skip` siblings behind the whole buckets of both.
fn show_siblings(sibs: &mut [u64], words: &[u64], skip: usize, sizes: Sizes) -> u64
    requires { SiblingRoom sizes skip words.now sibs.old }
    ensures { SiblingsBelow sizes words.now skip sibs.new result }
{
    Record::DUMMY.write(sibs, 0);
    gather::load_siblings(sibs, words, 2 * sizes.h as usize, skip, 2, sizes)
}

// For crates above: what an Insert looks at and works on.
pub fn show_pair(
    w: &mut [u64],
    one: &mut [u64],
    two: &mut [u64],
    all: &mut [u64],
    root: [Record; ROOT_PLACES],
    words: &[u64],
    sizes: Sizes,
) -> u64
    requires { PairShownRoom sizes words.now w.old one.old two.old all.old }
    ensures { PairShown sizes root words.now w.new one.new two.new all.new result }
{
    let h = sizes.h as usize;
    show_way(w, root, words, h, sizes);
    let moved = show_siblings(one, words, 0, sizes);
    let more = show_siblings(two, words, h - 1, sizes);
    show_way(all, root, words, 2 * h, sizes);
    moved + more
}
