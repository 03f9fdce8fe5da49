// The finish of ExtractMin and Delete on the card's parts: document 01, "replaces the root's least record, wherever it is on
// the path, by the dummy; Delete does so with the record that has this label and stamp, or answers Absent and removes
// nothing. Then the path is evicted." The card looks at itself and at the room first (13, 3, 11).
// All is prepared before the first word is written.
// Stands on `look`, `settle`, `work`, `writing` and what is below.
#![tactic(auto)]

ghost use Rattle.std.specs.Prelude.{◌≡◌, cond, ◌*◌, ◌-◌, ◌≤◌, length};
ghost use Rattle.path.specs.Layout.{bucket_words};
ghost use Rattle.clearing.specs.Removal.{named};
ghost use Rattle.writing.specs.Stored.{StoreRoom};
ghost use Rattle.lists.specs.BucketList.{words_moved, path_list};
ghost use Rattle.settle.specs.Left.{removal, removal_damaged};
ghost use Rattle.settle.specs.Settled.{Prepares, Settles, Writes};
ghost use Rattle.path.specs.Cut.{Cut};
ghost use Rattle.settle.specs.Room.{RemovalRoom};

use look::Looked;
use parts::Parts;
use path::{ROOT_PLACES, Sizes};
use record::{Leaf, RECORD_WORDS, Record, Stamp};
use settle::{Damaged, PATH_MOST, SIBLINGS_MOST, Settled, WAY_MOST, judged, path_words, way_words};
use work::Removed;

// The live events after a removal. None is found where none is live (`found-live`), so c - 1 never falls below 0.
fn live_after(c: u64, found: bool) -> u64
    ensures { result ≡ cond found (c - 1) c }
{
    if found { c.saturating_sub(1) } else { c }
}

// All is worked out: the path's buckets in `path`, nothing yet in the words. The words moved so far are the siblings'.
fn prepare_removal(
    words: &[u64],
    path: &mut [u64],
    root: [Record; ROOT_PLACES],
    parts: Parts,
    leaf: Leaf,
    label: Leaf,
    stamp: Stamp,
) -> Result<Settled, Damaged>
    requires { (RemovalRoom parts leaf words.now) × (length path.old ≡ parts.sizes.h * bucket_words parts.sizes.z) }
    ensures { Prepares (removal_damaged parts root words.now leaf (named label stamp)) (removal parts root words.now leaf (named label stamp)) parts.sizes.h path.new result }
{
    let sizes = parts.sizes;
    let h = sizes.h as usize;
    let slots = way_words(sizes, h);
    let siblings = RECORD_WORDS * h;
    let mut way = [0u64; WAY_MOST];
    let mut beside = [0u64; SIBLINGS_MOST];
    let w = &mut way[0..slots];
    let sibs = &mut beside[0..siblings];
    let Looked { moved, fit } = look::look_path(words, w, sibs, root, parts, leaf);
    fit?;
    let Removed { root, least, found } = work::remove_path(
        w, sibs, path, root, sizes, leaf, label, stamp,
    );
    let next = Settled {
        root,
        least,
        c: live_after(parts.c, found),
        found,
        moved,
    };
    judged(parts, next)
}

// The buckets are written.
fn write_removal(words: &mut [u64], path: &[u64], sizes: Sizes, out: Settled) -> Settled
    requires { (Cut sizes) × ((StoreRoom sizes words.old path.now) × (out.moved ≤ 4294967295)) }
    ensures { Writes path.now (sizes.h * (2 * bucket_words sizes.z)) words.old words.new out result }
{
    let stores = writing::write_path(words, path, sizes);
    Settled {
        moved: out.moved + stores,
        ..out
    }
}

// For crates above: the record of this label and stamp is removed, the path of the leaf evicted and written; or nothing is changed.
pub fn settle_removal(
    words: &mut [u64],
    root: [Record; ROOT_PLACES],
    parts: Parts,
    leaf: Leaf,
    label: Leaf,
    stamp: Stamp,
) -> Result<Settled, Damaged>
    requires { RemovalRoom parts leaf words.old }
    ensures { Settles (removal_damaged parts root words.old leaf (named label stamp)) (removal parts root words.old leaf (named label stamp)) (words_moved parts.sizes.z (path_list parts.sizes.h leaf)) words.old words.new result }
{
    let sizes = parts.sizes;
    let buckets = path_words(sizes);
    let mut prepared = [0u64; PATH_MOST];
    let path = &mut prepared[0..buckets];
    let out = prepare_removal(words, path, root, parts, leaf, label, stamp)?;
    Ok(write_removal(words, path, sizes, out))
}
