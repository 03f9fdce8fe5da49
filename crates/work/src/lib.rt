// The work of a finish on scratches: document 01, "It works, then each bucket's part of the fetched words is written where
// it stands". Nothing is written here but scratches, so that all is known before the first word changes.
// Stands on `record`, `path`, `way`, `least`, `gather`, `clearing`, `mend`.
#![tactic(auto)]

mod removal;

ghost use Rattle.record.specs.declared.Rule.{Rule};
ghost use Rattle.record.specs.Words.{records};
ghost use Rattle.mend.specs.Mended.{MendRoom, beside_at};
ghost use Rattle.work.specs.PathWork.{PathWorked};

use path::Sizes;
use record::{Leaf, Record};
pub use removal::{Removed, remove_path};

// For crates above: a way is evicted, its buckets are laid in `path` with their least records, and the root's least
// record is answered.
pub fn work_path(
    w: &mut [u64],
    beside: &[u64],
    path: &mut [u64],
    sizes: Sizes,
    leaf: Leaf,
) -> Record
    requires { MendRoom sizes leaf path.old w.old beside.now }
    ensures { (rule : Rule) → PathWorked rule sizes leaf (beside_at (records beside.now)) (records w.old) w.new path.new result }
{
    way::evict(w, sizes, leaf);
    let kids = mend::mend_path(path, w, beside, sizes, leaf);
    least::least_over(w, 0, sizes.r as usize, kids)
}
