// The bucket list of each request, and the words moved for it: document 01, "A request, step by step".
//
// The two lists are named after their shape: a pair of paths (Insert) and one path (ExtractMin, Delete). Stands on `record`
// and `path`.
#![tactic(auto)]

ghost use Rattle.std.specs.Prelude.{◌≡◌, map, ◌≤◌, ◌<◌, ◌^◌, length};
ghost use Rattle.record.specs.declared.Bucket.{Bucket};
ghost use Rattle.path.specs.Path.{path, sibling_of, number};
ghost use Rattle.lists.specs.BucketList.{pair_list, path_list, pair_counts, path_counts, numbers, laid_from, Names, Room, Gives, moved};

use path::{Sizes, bucket_words, sibling};
use record::{Bucket, Leaf, RECORD_WORDS};

// How many buckets of a list are whole, and how many of the numbers after them are for the least record only.
#[derive(Clone, Copy, PartialEq, Eq)]
pub struct Listed {
    pub whole: usize,
    pub least: usize,
}

const LEAST_WORDS: u64 = RECORD_WORDS as u64;

impl Listed {
    // For crates above: the words moved for such a list: a whole bucket is fetched and stored, of a sibling the least
    // record is fetched.
    pub fn words_moved(self, z: u64) -> u64
        requires { (z ≤ 5) × ((self.whole ≤ 32) × (self.least ≤ 32)) }
        ensures { result ≡ moved z self }
    {
        let bucket = bucket_words(z) as u64;
        self.whole as u64 * (2 * bucket) + self.least as u64 * LEAST_WORDS
    }
}

// For crates above: what an Insert's list has.
pub fn pair_counts(sizes: Sizes) -> Listed
    requires { (1 ≤ sizes.h) × (sizes.h ≤ 16) }
    ensures { result ≡ pair_counts sizes.h }
{
    let h = sizes.h as usize;
    Listed {
        whole: 2 * h,
        least: 2 * (h - 1),
    }
}

// For crates above: what the list of one path has.
pub fn path_counts(sizes: Sizes) -> Listed
    requires { sizes.h ≤ 16 }
    ensures { result ≡ path_counts sizes.h }
{
    let h = sizes.h as usize;
    Listed { whole: h, least: h }
}

// Names what `of` makes of the path's buckets, from a level down to the leaf, from a place of the list on.
fn name<F: Fn(Bucket) -> Bucket>(
    sizes: Sizes,
    leaf: Leaf,
    from: u64,
    list: &mut [u64],
    at: usize,
    of: F,
)
    requires callable { F.IsAlwaysCallable of }
    requires room { Room sizes.h leaf.0 from at (length list.old) }
    ensures { (g : Bucket → Bucket) → Gives F.post of g → list.new ≡ laid_from at (map number (map g (path sizes.h leaf from))) list.old }
{
    for level in from..=sizes.h {
        list[at + (level - from) as usize] = of(sizes.bucket_at(leaf, level)).0;
    }
}

// Names the path's buckets.
fn name_path(sizes: Sizes, leaf: Leaf, from: u64, list: &mut [u64], at: usize)
    requires { Room sizes.h leaf.0 from at (length list.old) }
    ensures { list.new ≡ laid_from at (map number (path sizes.h leaf from)) list.old }
{
    name(sizes, leaf, from, list, at, |bucket| bucket);
}

// Names the siblings of these buckets.
fn name_siblings(sizes: Sizes, leaf: Leaf, from: u64, list: &mut [u64], at: usize)
    requires { Room sizes.h leaf.0 from at (length list.old) }
    ensures { list.new ≡ laid_from at (map number (map sibling_of (path sizes.h leaf from))) list.old }
{
    name(sizes, leaf, from, list, at, |bucket| sibling(bucket));
}

// For crates above: Insert's list, the first path, the second, then the siblings of each from level 2 on.
pub fn list_pair(sizes: Sizes, first: Leaf, second: Leaf, list: &mut [u64]) -> Listed
    requires le_h { (1 ≤ sizes.h) × (sizes.h ≤ 16) }
    requires first_bound { (first.0 < 2 ^ sizes.h) × (second.0 < 2 ^ sizes.h) }
    requires second_in_bounds { length (numbers (pair_list sizes.h first second)) ≤ length list.old }
    ensures { Names (pair_list sizes.h first second) list.old list.new result }
{
    let h = sizes.h as usize;
    name_path(sizes, first, 1, list, 0);
    name_path(sizes, second, 1, list, h);
    name_siblings(sizes, first, 2, list, 2 * h);
    name_siblings(sizes, second, 2, list, 3 * h - 1);
    pair_counts(sizes)
}

// For crates above: the list of ExtractMin and of Delete, the path and then its siblings.
pub fn list_path(sizes: Sizes, leaf: Leaf, list: &mut [u64]) -> Listed
    requires h_bound { (sizes.h ≤ 16) × (leaf.0 < 2 ^ sizes.h) }
    requires leaf_in_bounds { length (numbers (path_list sizes.h leaf)) ≤ length list.old }
    ensures { Names (path_list sizes.h leaf) list.old list.new result }
{
    let h = sizes.h as usize;
    name_path(sizes, leaf, 1, list, 0);
    name_siblings(sizes, leaf, 1, list, h);
    path_counts(sizes)
}
