// Clause 3 of Damaged, below the root: "the least record of a path bucket .. isn't the one its slots and children give".
// Equal in all four numbers: the order tells key and stamp alone. The children's least records are the fetched ones. Stands on
// `record`, `path`, `least` and the definitions of `sound`.
#![tactic(auto)]

ghost use Rattle.std.specs.Prelude.{◌≡◌, ◌*◌, ◌≤◌, length};
ghost use Rattle.record.specs.declared.Rule.{Rule};
ghost use Rattle.record.specs.Order.{smallest};
ghost use Rattle.truth.specs.Leasts.{kids_shown, true_at, all_true};
ghost use Rattle.sound.specs.Fetched.{shown_in, beside_in, fetched_in};
ghost use Rattle.sound.specs.Room.{Room};

use path::Sizes;
use record::{Leaf, Record};

// The smallest of the fetched least records of the children of the path's bucket at this level; the leaf's bucket has
// none.
fn least_kid(path: &[u64], sibs: &[u64], sizes: Sizes, leaf: Leaf, level: u64) -> Record
    requires { (Room sizes leaf path.now) × (4 * sizes.h ≤ length sibs.now) }
    ensures { (rule : Rule) → result ≡ smallest rule (kids_shown sizes.h leaf (shown_in sizes.z path.now) (beside_in sibs.now) level) }
{
    if level >= sizes.h {
        return Record::DUMMY;
    }
    let place = level as usize;
    let own = Record::read(path, place * (sizes.z as usize + 1));
    let other = Record::read(sibs, place);
    least::kids_least(sizes.bucket_at(leaf, level + 1), own, other)
}

// Whether the fetched least record of the path's bucket at this level is true.
fn least_true(path: &[u64], sibs: &[u64], sizes: Sizes, leaf: Leaf, level: u64) -> bool
    requires { (Room sizes leaf path.now) × ((4 * sizes.h ≤ length sibs.now) × ((1 ≤ level) × (level ≤ sizes.h))) }
    ensures { (rule : Rule) → result ≡ true_at sizes.h rule (fetched_in sizes.z leaf path.now sibs.now) level }
{
    let z = sizes.z as usize;
    let first = (level as usize - 1) * (z + 1);
    let kid = least_kid(path, sibs, sizes, leaf, level);
    let given = least::least_over(path, first + 1, z, kid);
    Record::read(path, first).same(given)
}

// For crates above: clause 3 for one path, level by level.
pub fn leasts_true(path: &[u64], sibs: &[u64], sizes: Sizes, leaf: Leaf) -> bool
    requires { (Room sizes leaf path.now) × (4 * sizes.h ≤ length sibs.now) }
    ensures { (rule : Rule) → result ≡ all_true sizes.h rule (fetched_in sizes.z leaf path.now sibs.now) }
{
    for level in 1..=sizes.h {
        if !least_true(path, sibs, sizes, leaf, level) {
            return false;
        }
    }
    true
}
