// Insert's work: document 01, "Insert puts the record, with stamp t, into the lowest dummy slot of the root, then evicts the
// first path, then the second." Nothing is written but scratches. Stands on `record`, `path`, `root`, `gather` and `work`.
#![tactic(auto)]

mod seating;

ghost use Rattle.std.specs.Prelude.{◌*◌};
ghost use Rattle.record.specs.declared.Rule.{Rule};
ghost use Rattle.record.specs.Words.{records};
ghost use Rattle.gather.specs.Shown.{slots_shown};
ghost use Rattle.mend.specs.Mended.{beside_at};
ghost use Rattle.pair.specs.PairWork.{PairRoom, PairWorked, second_siblings};

use path::Sizes;
use record::{Leaf, Record};
pub use seating::seat;
use work::work_path;

// For crates above: the scratch `w` holds the root's slots and the first path's, `beside` the first path's siblings from
// level 2 on. The second path's come from the fetched words when its turn is; its sibling at level 1 is the first path's
// bucket.
pub fn work_pair(
    w: &mut [u64],
    beside: &mut [u64],
    first_path: &mut [u64],
    second_path: &mut [u64],
    words: &[u64],
    new: Record,
    sizes: Sizes,
    first: Leaf,
    second: Leaf,
) -> Record
    requires { PairRoom sizes first second first_path.old second_path.old w.old beside.old words.now }
    ensures { (rule : Rule) → PairWorked rule sizes first second new (beside_at (records beside.old)) (second_siblings sizes words.now) (records w.old) (slots_shown sizes.z words.now sizes.h sizes.h) w.new first_path.new second_path.new result }
{
    let h = sizes.h as usize;
    seat(w, sizes.r as usize, new);
    work_path(w, beside, first_path, sizes, first);
    gather::load_path(w, words, h, sizes);
    gather::load_siblings(beside, words, 2 * h, h - 1, 2, sizes);
    let top = Record::read(first_path, 0);
    top.write(beside, 0);
    work_path(w, beside, second_path, sizes, second)
}
