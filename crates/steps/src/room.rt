// How many of the lent words are the tree: document 01, "The tree has exactly 4(Z+1)(2N-2) words".
ghost use Rattle.std.specs.Prelude.{◌≡◌};
ghost use Rattle.steps.specs.Step.{tree_words_used, used_of};

use path::tree_in_range;

// The words of a tree of these sizes; none for sizes out of range.
#[tactic(auto, unfolding(crate::specs::Step::tree_words_used))]
pub fn tree_words(h: u64, z: u64) -> usize
    ensures { result ≡ tree_words_used h z }
{
    if tree_in_range(h, z) {
        copies::tree_words(h, z)
    } else {
        0
    }
}

// So many of the lent words.
pub fn used(h: u64, z: u64, lent: usize) -> usize
    ensures { result ≡ used_of h z lent }
{
    tree_words(h, z).min(lent)
}
