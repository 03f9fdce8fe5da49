// Damaged, its first three clauses: document 01, "Refusal numbers". What was fetched is looked at before anything is
// worked out, and nothing is written.
//
// A path's checks are lent the part of the fetched words that holds its h whole buckets, and a scratch where the least
// record of level d's sibling stands at place d - 1. The stamps are looked at in a scratch that holds all slots together.
// Stands on `record`, `path`, `least`, `stamps`, `sound` and `truth`.
#![tactic(auto)]

ghost use Rattle.std.specs.Prelude.{◌≡◌, ◌*◌, ◌≤◌, ◌^◌, length};
ghost use Rattle.record.specs.Words.{records};
ghost use Rattle.sound.specs.Fetched.{fetched_in};
ghost use Rattle.damage.specs.Damaged.{path_damaged, pair_damaged};
ghost use Rattle.sound.specs.Room.{Room};

use path::Sizes;
use record::{Leaf, Record, Rule};
use sound::all_sound;
use truth::leasts_true;

// The first level whose siblings are fetched: of one path, and of an Insert's two, which have each other at level 1.
const PATH_SIBLINGS: u64 = 1;

const PAIR_SIBLINGS: u64 = 2;

// For crates above: Damaged for the one path of ExtractMin and Delete. `slots` is the scratch of the way, `least` the
// root's least record.
#[tactic(auto, unfolding(crate::specs::Damaged::path_damaged))]
pub fn path_damaged(
    path: &[u64],
    sibs: &[u64],
    slots: &[u64],
    sizes: Sizes,
    leaf: Leaf,
    rule: Rule,
    least: Record,
) -> bool
    requires room { (Room sizes leaf path.now) × ((4 * sizes.h ≤ length sibs.now) × (4 * sizes.r ≤ length slots.now)) }
    requires leaves_value { rule.leaves ≡ 2 ^ sizes.h }
    ensures { result ≡ path_damaged sizes.h sizes.r rule least (fetched_in sizes.z leaf path.now sibs.now) (records slots.now) }
{
    let own = Record::read(path, 0);
    let other = Record::read(sibs, 0);
    let kids = least::kids_least(sizes.bucket_at(leaf, 1), own, other);
    !all_sound(path, sibs, sizes, leaf, rule, PATH_SIBLINGS)
        || stamps::stamp_twice(slots)
        || !leasts_true(path, sibs, sizes, leaf)
        || !least.same(least::least_over(slots, 0, sizes.r as usize, kids))
}

// For crates above: Damaged for an Insert's two paths, whose siblings were fetched from level 2 on. `all` is a scratch with
// the root's slots, the first path's and the second's.
#[tactic(auto, unfolding(crate::specs::Damaged::pair_damaged))]
pub fn pair_damaged(
    one: &[u64],
    two: &[u64],
    one_sibs: &[u64],
    two_sibs: &[u64],
    all: &[u64],
    sizes: Sizes,
    first: Leaf,
    second: Leaf,
    rule: Rule,
    least: Record,
) -> bool
    requires room { (Room sizes first one.now) × (4 * sizes.h ≤ length one_sibs.now) }
    requires room_2 { (Room sizes second two.now) × (4 * sizes.h ≤ length two_sibs.now) }
    requires r_in_bounds { (4 * sizes.r ≤ length all.now) × (rule.leaves ≡ 2 ^ sizes.h) }
    ensures { result ≡ pair_damaged sizes.h sizes.r rule least (fetched_in sizes.z first one.now one_sibs.now) (fetched_in sizes.z second two.now two_sibs.now) (records all.now) }
{
    let lower = Record::read(one, 0);
    let upper = Record::read(two, 0);
    let kids = lower.smaller(upper.smaller(Record::DUMMY));
    !all_sound(one, one_sibs, sizes, first, rule, PAIR_SIBLINGS)
        || !all_sound(two, two_sibs, sizes, second, rule, PAIR_SIBLINGS)
        || stamps::stamp_twice(all)
        || !leasts_true(one, one_sibs, sizes, first)
        || !leasts_true(two, two_sibs, sizes, second)
        || !least.same(least::least_over(all, 0, sizes.r as usize, kids))
}
