// Least records: document 01, "The least record is the smallest of its own slots and its children's least records, or
// the dummy; a tie takes own slots first in slot order, then the lower child." Stands on `record` and the laws of `way`.
#![tactic(auto)]

ghost use Rattle.std.specs.Prelude.{◌≡◌, ◌+◌, ◌*◌, ◌≤◌, length, take, drop};
ghost use Rattle.record.specs.declared.Rule.{Rule};
ghost use Rattle.record.specs.Order.{smallest};
ghost use Rattle.record.specs.Words.{records};
ghost use Rattle.least.specs.Least.{over, in_order};

use record::{Bucket, Record};

// For crates above: the smallest of n records from a place on, and of one that stands after them. It goes from the last
// to the first, so that of two that tie the one that stands first is kept.
pub fn least_over(w: &[u64], from: usize, n: usize, last: Record) -> Record
    requires { 4 * (from + n) ≤ length w.now }
    ensures { (rule : Rule) → result ≡ over rule (take n (drop from (records w.now))) last }
{
    let mut least = last;
    for k in (0..n).rev() {
        least = Record::read(w, from + k).smaller(least);
    }
    least
}

// For crates above: the smallest of the least records of a bucket and of its sibling, or the dummy. A tie takes the lower
// of the two buckets, not the one whose path is worked on.
pub fn kids_least(bucket: Bucket, own: Record, other: Record) -> Record
    ensures { (rule : Rule) → result ≡ smallest rule (in_order bucket own other) }
{
    if bucket.0 % 2 == 0 {
        return own.smaller(other.smaller(Record::DUMMY));
    }
    other.smaller(own.smaller(Record::DUMMY))
}
