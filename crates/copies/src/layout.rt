// Where a bucket stands in the tree's words: document 01, "Records and numbering", its third paragraph.
ghost use Rattle.std.specs.Prelude.{◌≡◌, true, ◌≤◌, ◌<◌, ◌^◌};
ghost use Rattle.path.specs.Path.{bucket};
ghost use Rattle.path.specs.Sizes.{tree_in};
ghost use Rattle.path.specs.Layout.{bucket_start, tree_words};

use path::{bucket_words, leaves};

// The tree begins with bucket 2: the root is on the card.
pub const FIRST_BUCKET: u64 = 2;

// For crates above.
pub fn tree_words(h: u64, z: u64) -> usize
    requires { tree_in h z ≡ true }
    ensures { result ≡ tree_words h z }
{
    bucket_words(z) * (2 * leaves(h) - FIRST_BUCKET) as usize
}

// The first word of a bucket whose words lie in some tree.
pub(crate) fn bucket_start(z: u64, number: u64) -> usize
    requires { (z ≤ 5) × ((2 ≤ number) × (bucket_start z (bucket number) < 2 ^ 64)) }
    ensures { result ≡ bucket_start z (bucket number) }
{
    bucket_words(z) * (number - FIRST_BUCKET) as usize
}
