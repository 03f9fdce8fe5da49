// The rack's refusals: document 01, "On the rack: 1, 11, 14". One function decides for each call, in that order.
ghost use Rattle.std.specs.Prelude.{◌≡◌, ◌≤◌, length, take};
ghost use Rattle.refusal.specs.Reason.{refusal_in};
ghost use Rattle.refusal.specs.Refusal.{first_given};
ghost use Rattle.rack.specs.Answers.{fill_table, copy_table, few_words, any_outside};

use copies::FIRST_BUCKET;
use path::{leaves, tree_in_range};
use record::RECORD_WORDS;
use refusal::Reason;

// Whether so many words are too few for the counts. By division: for a list of 2^60 places the product fits no word.
fn few_words(z: u64, whole: usize, least: usize, words: usize) -> bool
    requires { z ≤ 5 }
    ensures { result ≡ few_words z whole least words }
{
    let bucket = path::bucket_words(z);
    words / bucket < whole || (words - whole * bucket) / RECORD_WORDS < least
}

// Whether some of these numbers names no bucket of the tree.
fn any_outside(h: u64, numbers: &[u64]) -> bool
    requires { h ≤ 16 }
    ensures { result ≡ any_outside h numbers.now }
{
    let end = 2 * leaves(h);
    numbers
        .iter()
        .any(|&number| number < FIRST_BUCKET || number >= end)
}

pub(crate) fn of_fill(h: u64, z: u64, tree: usize) -> Result<(), Reason>
    ensures { refusal_in result ≡ first_given (fill_table h z tree) }
{
    if !tree_in_range(h, z) {
        return Err(Reason::BadSize);
    }
    if tree == copies::tree_words(h, z) {
        Ok(())
    } else {
        Err(Reason::ShortRoom)
    }
}

// Of fetch and of store, which are given the same things: as of fill, and then of the list. The counts are compared without
// their sum, which may wrap.
// Kept: two counts, as the calls and the C interface have them; a `Listed` would be put together only to be taken apart again.
pub(crate) fn of_copy(
    h: u64,
    z: u64,
    tree: usize,
    list: &[u64],
    whole: usize,
    least: usize,
    words: usize,
) -> Result<(), Reason>
    ensures { refusal_in result ≡ first_given (copy_table h z tree list.now whole least words) }
{
    of_fill(h, z, tree)?;
    if whole > list.len() || least > list.len() - whole {
        return Err(Reason::ShortRoom);
    }
    if few_words(z, whole, least, words) {
        return Err(Reason::ShortRoom);
    }
    let covered = whole + least;
    if any_outside(h, &list[..covered]) {
        return Err(Reason::BadBucket);
    }
    Ok(())
}
