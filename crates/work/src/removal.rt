// The work of ExtractMin and Delete: document 01, "ExtractMin replaces the root's least record, wherever it is on the path,
// by the dummy; Delete does so with the record that has this label and stamp, or answers Absent and removes nothing. Then
// the path is evicted."
ghost use Rattle.record.specs.declared.Rule.{Rule};
ghost use Rattle.record.specs.Words.{records};
ghost use Rattle.clearing.specs.Removal.{named};
ghost use Rattle.mend.specs.Mended.{MendRoom};
ghost use Rattle.work.specs.RemovalWork.{PathRemoved};

use crate::work_path;
use path::{ROOT_PLACES, Sizes};
use record::{Leaf, Record, Stamp};

// What a removal makes of the card's root, and whether the record was there.
// Kept: the path is evicted in either case, so root and least are no Option that `found` would tell of.
#[derive(Clone, Copy)]
pub struct Removed {
    pub root: [Record; ROOT_PLACES],
    pub least: Record,
    pub found: bool,
}

// For crates above: the record is removed from the way in `w`, and the path worked on; its buckets are laid in `path`.
pub fn remove_path(
    w: &mut [u64],
    sibs: &[u64],
    path: &mut [u64],
    root: [Record; ROOT_PLACES],
    sizes: Sizes,
    leaf: Leaf,
    label: Leaf,
    stamp: Stamp,
) -> Removed
    requires { MendRoom sizes leaf path.old w.old sibs.now }
    ensures { (rule : Rule) → PathRemoved rule sizes leaf (named label stamp) (records sibs.now) (records w.old) root path.new result }
{
    let found = clearing::clear(w, label, stamp);
    let least = work_path(w, sibs, path, sizes, leaf);
    let root = gather::save_root(w, root, sizes.r as usize);
    Removed { root, least, found }
}
