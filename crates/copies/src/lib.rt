// Words copied bucket by bucket: document 01, "fills a fresh lent tree and copies buckets out of it and back", once the rack
// has looked at what it was given.
//
// A copy reads and writes at places of whole slices, so that every word of a lent slice is told by one equation. Stands on
// `record`, `path` and the definitions of `lists`.
#![tactic(auto)]

ghost use Rattle.std.specs.Prelude.{◌≡◌, map, ◌+◌, ◌*◌, ◌≤◌, ◌/◌, ◌%◌, length, take, replicate};
ghost use Rattle.record.specs.Standing.{dummy};
ghost use Rattle.record.specs.Words.{words_of};
ghost use Rattle.path.specs.Path.{bucket};
ghost use Rattle.path.specs.Layout.{bucket_words};
ghost use Rattle.copies.specs.Copy.{listed, part_words, fetched, stored, Covered};

use path::bucket_words;
use record::{RECORD_WORDS, Record, copy_words};

mod layout;

pub use layout::{FIRST_BUCKET, tree_words};

// For crates above: a dummy in every place.
pub fn fill_dummies(tree: &mut [u64])
    requires { length tree.old % 4 ≡ 0 }
    ensures { tree.new ≡ words_of (replicate (length tree.old / 4) dummy) }
{
    let dummy = Record::DUMMY;
    let places = tree.len() / RECORD_WORDS;
    for place in 0..places {
        dummy.write(tree, place);
    }
}

// How many words of the i-th bucket of a list are fetched.
#[tactic(auto, unfolding(crate::specs::Copy::part_words))]
fn part_words(z: u64, whole: usize, i: usize) -> usize
    requires { z ≤ 5 }
    ensures { result ≡ part_words z whole i }
{
    if i < whole {
        bucket_words(z)
    } else {
        RECORD_WORDS
    }
}

// For crates above: the first `whole` numbers' buckets, then the next `least` numbers' least records, from word 0 on.
pub fn fetch_listed(
    z: u64,
    tree: &[u64],
    list: &[u64],
    whole: usize,
    least: usize,
    words: &mut [u64],
)
    requires covered { Covered z (length tree.now) list.now (whole + least) }
    requires least_in_bounds { whole * bucket_words z + least * 4 ≤ length words.old }
    ensures { words.new ≡ fetched z tree.now (listed list.now whole least) words.old }
{
    let mut at = 0;
    for (i, &number) in list[..whole + least].iter().enumerate() {
        let part = part_words(z, whole, i);
        let from = layout::bucket_start(z, number);
        copy_words(words, at, tree, from, part);
        at += part;
    }
}

// For crates above: the first `whole` numbers' buckets back to where they stand.
pub fn store_listed(z: u64, tree: &mut [u64], list: &[u64], whole: usize, words: &[u64])
    requires covered { Covered z (length tree.old) list.now whole }
    requires z_in_bounds { whole * bucket_words z ≤ length words.now }
    ensures { tree.new ≡ stored z (map bucket (take whole list.now)) words.now tree.old }
{
    let bucket = bucket_words(z);
    let mut at = 0;
    for &number in &list[..whole] {
        let to = layout::bucket_start(z, number);
        copy_words(tree, to, words, at, bucket);
        at += bucket;
    }
}
