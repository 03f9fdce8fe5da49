// The least records of one path, from the leaf up, and its buckets in words: document 01, "The least record is the
// smallest of its own slots and its children's least records" and "first its least record, then its slots".
ghost use Rattle.std.specs.Prelude.{◌≡◌, ◌++◌, ◌+◌, length};
ghost use Rattle.record.specs.declared.Rule.{Rule};
ghost use Rattle.record.specs.Words.{words4, records};
ghost use Rattle.mend.specs.Mended.{MendRoom, Mended};

use path::Sizes;
use record::{Leaf, RECORD_WORDS, Record};
use writing::write_part;

// One bucket's words: its least record, then its slots.
fn write_bucket(part: &mut [u64], least: Record, slots: &[u64])
    requires { length part.old ≡ 4 + length slots.now }
    ensures { part.new ≡ words4 least ++ slots.now }
{
    least.write(part, 0);
    write_part(&mut part[RECORD_WORDS..], slots);
}

// For crates above: the buckets of an evicted way with their least records, in a scratch just as long; and the smallest
// of the least records of the root's children. `beside` holds the siblings' least records from level 1 on.
pub fn mend_path(path: &mut [u64], w: &[u64], beside: &[u64], sizes: Sizes, leaf: Leaf) -> Record
    requires { MendRoom sizes leaf path.old w.now beside.now }
    ensures { (rule : Rule) → Mended rule sizes leaf (records w.now) (records beside.now) path.new result }
{
    let z = sizes.z as usize;
    let size = RECORD_WORDS * z;
    let mut last = w.len();
    let mut end = path.len();
    let mut least = Record::DUMMY;
    for level in (1..=sizes.h).rev() {
        let first = last - size;
        let start = end - size - RECORD_WORDS;
        let slots = &w[first..last];
        let own = least::least_over(slots, 0, z, least);
        write_bucket(&mut path[start..end], own, slots);
        let other = Record::read(beside, level as usize - 1);
        least = least::kids_least(sizes.bucket_at(leaf, level), own, other);
        last = first;
        end = start;
    }
    least
}
