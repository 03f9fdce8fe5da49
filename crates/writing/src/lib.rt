// The stores of a finish: document 01, "each bucket's part of the fetched words is written where it stands; sibling
// words, and any words past the list, stay". Stands on `record` and `path`.
#![tactic(auto)]

ghost use Rattle.std.specs.Prelude.{◌≡◌, length};
ghost use Rattle.writing.specs.Stored.{StoreRoom, Stored};

use path::{Sizes, bucket_words};
use record::copy_words;

// For crates above: the bucket writer. A part of the words, one bucket long, takes the words of another just as long.
pub fn write_part(part: &mut [u64], from: &[u64])
    requires { length part.old ≡ length from.now }
    ensures { part.new ≡ from.now }
{
    copy_words(part, 0, from, 0, from.len());
}

// For crates above: the prepared buckets of a path are written, each into its part of the fetched words, and the words
// moved are counted with each: it was fetched and is stored.
// Kept: a bucket's part is what is lent to be written, so one copy of the whole path is no plainer form of it.
#[tactic(auto, using(crate::proofs::StoreLaws::next_bucket))]
pub fn write_path(words: &mut [u64], from: &[u64], sizes: Sizes) -> u64
    requires { StoreRoom sizes words.old from.now }
    ensures { Stored sizes from.now words.old words.new result }
{
    let size = bucket_words(sizes.z);
    let mut moved = 0;
    let mut start = 0;
    for _ in 0..sizes.h {
        let end = start + size;
        write_part(&mut words[start..end], &from[start..end]);
        moved += 2 * size as u64;
        start = end;
    }
    moved
}
