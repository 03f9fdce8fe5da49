// An Insert worked out: document 01, "puts the record, with stamp t, into the lowest dummy slot of the root, then evicts the
// first path, then the second", all in scratches, and the card that would come out is judged. No word is written here.
// Stands on `look`, `settle`, `pair` and what is below.
#![tactic(auto)]

ghost use Rattle.std.specs.Prelude.{◌≡◌, ◌*◌, length};
ghost use Rattle.path.specs.Layout.{bucket_words};
ghost use Rattle.settle.specs.Room.{InsertionRoom};
ghost use Rattle.prepare.specs.Prepared.{PairPrepared};

use look::Looked;
use parts::Parts;
use path::ROOT_PLACES;
use record::{Leaf, RECORD_WORDS, Record};
use settle::{Damaged, SIBLINGS_MOST, Settled, WAY_MOST, judged, way_words};

// For crates above: the paths' buckets are laid in `one` and `two`, unless what was fetched is Damaged. The words moved so far
// are the siblings'.
pub fn prepare_insertion(
    words: &[u64],
    one: &mut [u64],
    two: &mut [u64],
    root: [Record; ROOT_PLACES],
    parts: Parts,
    first: Leaf,
    second: Leaf,
    new: Record,
) -> Result<Settled, Damaged>
    requires { (InsertionRoom parts first second words.now) × ((length one.old ≡ parts.sizes.h * bucket_words parts.sizes.z) × (length two.old ≡ parts.sizes.h * bucket_words parts.sizes.z)) }
    ensures { PairPrepared parts root words.now first second new one.old two.old one.new two.new result }
{
    let sizes = parts.sizes;
    let h = sizes.h as usize;
    let slots = way_words(sizes, h);
    let siblings = RECORD_WORDS * h;
    let mut way = [0u64; WAY_MOST];
    let mut sibs = [0u64; SIBLINGS_MOST];
    let w = &mut way[0..slots];
    let beside = &mut sibs[0..siblings];
    let Looked { moved, fit } = look::look_pair(words, w, beside, root, parts, first, second);
    fit?;
    let least = pair::work_pair(w, beside, one, two, words, new, sizes, first, second);
    let root = gather::save_root(w, root, sizes.r as usize);
    let next = Settled {
        root,
        least,
        c: parts.c + 1,
        found: false,
        moved,
    };
    judged(parts, next)
}
