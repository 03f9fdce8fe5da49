// Clause 1 of Damaged: "a fetched slot or least record is neither the dummy nor a proper record whose path holds that
// bucket". That bucket, for a sibling's least record, is the sibling itself.
//
// The checks are lent the part of the fetched words that holds the path's h whole buckets, and a scratch where the least
// record of level d's sibling stands at place d - 1. The rule is the tree's: its `leaves` is N. Stands on `record`, `path` and the
// definitions of `gather`.
#![tactic(auto)]

ghost use Rattle.std.specs.Prelude.{◌≡◌, ◌*◌, ◌≤◌, ◌<◌, ◌^◌, length};
ghost use Rattle.record.specs.Many.{every};
ghost use Rattle.record.specs.Words.{records};
ghost use Rattle.sound.specs.Sound.{sound, path_sound, siblings_sound, all_sound};
ghost use Rattle.sound.specs.Fetched.{shown_in, beside_in, fetched_in};
ghost use Rattle.sound.specs.Room.{Room};

use path::{Sizes, bucket_words, sibling};
use record::{Bucket, Leaf, RECORD_WORDS, Record, Rule};

// Whether the record may stand in this bucket of this level.
#[tactic(auto, unfolding(crate::specs::Sound::sound))]
fn is_sound(record: Record, sizes: Sizes, rule: Rule, level: u64, bucket: Bucket) -> bool
    requires { (sizes.h ≤ 16) × ((rule.leaves ≡ 2 ^ sizes.h) × (level ≤ sizes.h)) }
    ensures { result ≡ sound sizes.h rule level bucket «record» }
{
    record.is_dummy() || (record.is_proper(rule) && sizes.holds(record.label, level, bucket))
}

// Every record of a bucket's part: its least record and its slots.
fn bucket_sound(part: &[u64], sizes: Sizes, rule: Rule, level: u64, bucket: Bucket) -> bool
    requires { (sizes.h ≤ 16) × ((rule.leaves ≡ 2 ^ sizes.h) × (level ≤ sizes.h)) }
    ensures { result ≡ every (sound sizes.h rule level bucket) (records part.now) }
{
    let n = part.len() / RECORD_WORDS;
    for i in 0..n {
        if !is_sound(Record::read(part, i), sizes, rule, level, bucket) {
            return false;
        }
    }
    true
}

// The path's buckets, level by level.
#[tactic(auto, using(crate::proofs::Checking::part_within))]
fn path_sound(path: &[u64], sizes: Sizes, leaf: Leaf, rule: Rule) -> bool
    requires { (Room sizes leaf path.now) × (rule.leaves ≡ 2 ^ sizes.h) }
    ensures { result ≡ path_sound sizes.h leaf (shown_in sizes.z path.now) rule }
{
    let size = bucket_words(sizes.z);
    for level in 1..=sizes.h {
        let start = (level as usize - 1) * size;
        let bucket = sizes.bucket_at(leaf, level);
        if !bucket_sound(&path[start..start + size], sizes, rule, level, bucket) {
            return false;
        }
    }
    true
}

// The siblings' least records from a level on.
fn siblings_sound(sibs: &[u64], sizes: Sizes, leaf: Leaf, rule: Rule, from: u64) -> bool
    requires h_bound { (sizes.h ≤ 16) × ((leaf.0 < 2 ^ sizes.h) × ((1 ≤ from) × (4 * sizes.h ≤ length sibs.now))) }
    requires leaves_value { rule.leaves ≡ 2 ^ sizes.h }
    ensures { result ≡ siblings_sound sizes.h leaf (beside_in sibs.now) rule from }
{
    for level in from..=sizes.h {
        let least = Record::read(sibs, level as usize - 1);
        let bucket = sibling(sizes.bucket_at(leaf, level));
        if !is_sound(least, sizes, rule, level, bucket) {
            return false;
        }
    }
    true
}

// For crates above: clause 1 for one path, whose siblings were fetched from a level on.
pub fn all_sound(
    path: &[u64],
    sibs: &[u64],
    sizes: Sizes,
    leaf: Leaf,
    rule: Rule,
    from: u64,
) -> bool
    requires room { (Room sizes leaf path.now) × ((1 ≤ from) × (4 * sizes.h ≤ length sibs.now)) }
    requires leaves_value { rule.leaves ≡ 2 ^ sizes.h }
    ensures { result ≡ all_sound sizes.h rule (fetched_in sizes.z leaf path.now sibs.now) from }
{
    path_sound(path, sizes, leaf, rule) && siblings_sound(sibs, sizes, leaf, rule, from)
}
