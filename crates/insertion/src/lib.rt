// The finish of Insert on the card's parts: document 01, "Insert puts the record, with stamp t, into the lowest dummy slot of
// the root, then evicts the first path, then the second." The card looks at itself and at the room first (13, 3, 11). All is
// prepared before the first word is written.
// Stands on `prepare`, `settle`, `writing` and what is below.
#![tactic(auto)]

ghost use Rattle.std.specs.Prelude.{◌++◌, ◌*◌, ◌≤◌};
ghost use Rattle.path.specs.Layout.{bucket_words};
ghost use Rattle.lists.specs.BucketList.{words_moved, pair_list};
ghost use Rattle.settle.specs.Left.{insertion, insertion_damaged};
ghost use Rattle.settle.specs.Settled.{Settles, Writes};
ghost use Rattle.settle.specs.Room.{InsertionRoom};
ghost use Rattle.insertion.specs.Store.{PairStoreRoom};

use parts::Parts;
use path::{ROOT_PLACES, Sizes};
use record::{Leaf, Record};
use settle::{Damaged, PATH_MOST, Settled, path_words};

// The buckets are written: the first path's, and behind them the second's.
fn write_insertion(
    words: &mut [u64],
    one: &[u64],
    two: &[u64],
    sizes: Sizes,
    out: Settled,
) -> Settled
    requires { (PairStoreRoom sizes words.old one.now two.now) × (out.moved ≤ 4294967295) }
    ensures { Writes (one.now ++ two.now) (2 * (sizes.h * (2 * bucket_words sizes.z))) words.old words.new out result }
{
    let half = one.len();
    let lower = writing::write_path(words, one, sizes);
    let upper = writing::write_path(&mut words[half..], two, sizes);
    let stores = lower + upper;
    Settled {
        moved: out.moved + stores,
        ..out
    }
}

// For crates above: the record takes its place in the root, both paths are evicted and written; or nothing is changed.
pub fn settle_insertion(
    words: &mut [u64],
    root: [Record; ROOT_PLACES],
    parts: Parts,
    first: Leaf,
    second: Leaf,
    new: Record,
) -> Result<Settled, Damaged>
    requires { InsertionRoom parts first second words.old }
    ensures { Settles (insertion_damaged parts root words.old first second new) (insertion parts root words.old first second new) (words_moved parts.sizes.z (pair_list parts.sizes.h first second)) words.old words.new result }
{
    let sizes = parts.sizes;
    let buckets = path_words(sizes);
    let mut lower = [0u64; PATH_MOST];
    let mut upper = [0u64; PATH_MOST];
    let one = &mut lower[0..buckets];
    let two = &mut upper[0..buckets];
    let out = prepare::prepare_insertion(words, one, two, root, parts, first, second, new)?;
    Ok(write_insertion(words, one, two, sizes, out))
}
