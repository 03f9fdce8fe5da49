// Ranges of sizes, path numbers, siblings and bucket lists.
ghost use Rattle.std.specs.Prelude.{◌≤◌, ◌<◌, ◌^◌};

use lists::Listed;
use path::Sizes;
use record::Leaf;
use shown_lines::{Numbers, Verdict};
use std::io;

// Height 2 with one slot everywhere.
const TWO: Sizes = Sizes {
    h: 2,
    z: 1,
    r: 1,
    t: 16,
};

fn range_line(rt: &impl Print, h: u64, z: u64, r: u64, t: u64) -> io::Result<()> {
    let sizes = Sizes { h, z, r, t };
    println!(rt; "sizes: {h} {z} {r} {t}{}", Verdict(sizes.in_range()))
}

pub(crate) fn ranges(rt: &impl Print) -> io::Result<()> {
    range_line(rt, 2, 1, 1, 16)?;
    range_line(rt, 16, 5, 64, 65536)?;
    range_line(rt, 16, 5, 64, 65535)?;
    range_line(rt, 16, 5, 64, 4294967295)?;
    range_line(rt, 16, 5, 64, 4294967296)?;
    range_line(rt, 0, 1, 1, 16)?;
    range_line(rt, 17, 1, 1, 4294967295)?;
    range_line(rt, 18446744073709551615, 1, 1, 16)?;
    range_line(rt, 2, 0, 1, 16)?;
    range_line(rt, 2, 6, 1, 16)?;
    range_line(rt, 2, 1, 0, 16)?;
    range_line(rt, 2, 1, 65, 16)?;
    range_line(rt, 2, 1, 1, 3)
}

// The path of leaf 1 at height 2, root first, and its siblings below the root.
pub(crate) fn numbers(rt: &impl Print) -> io::Result<()> {
    let root = TWO.bucket_at(Leaf(1), 0);
    let one = TWO.bucket_at(Leaf(1), 1);
    let two = TWO.bucket_at(Leaf(1), 2);
    println!(rt; "path of leaf 1: {} {} {}", root.0, one.0, two.0)?;
    println!(rt;
        "its siblings: {} {}",
        path::sibling(one).0,
        path::sibling(two).0
    )?;
    holds_line(rt, 0)?;
    holds_line(rt, 2)
}

fn holds_line(rt: &impl Print, leaf: u64) -> io::Result<()>
    requires { leaf < 2 ^ 2 }
{
    let holds = TWO.holds(Leaf(leaf), 1, TWO.bucket_at(Leaf(1), 1));
    println!(rt; "leaf {leaf} holds bucket 2 at level 1:{}", Verdict(holds))
}

// Every place of the list, so that places past the last number show.
fn list_lines(rt: &impl Print, text: &str, list: &[u64], counts: Listed, z: u64) -> io::Result<()>
    requires { (z ≤ 5) × ((counts.whole ≤ 32) × (counts.least ≤ 32)) }
{
    println!(rt; "{text}{}", Numbers(list))?;
    println!(rt;
        "whole, least, words: {} {} {}",
        counts.whole,
        counts.least,
        counts.words_moved(z)
    )
}

// A list of twelve has room for each list up to height 3, and places left over.
fn pair_line(rt: &impl Print, text: &str, sizes: Sizes, first: Leaf, second: Leaf) -> io::Result<()>
    requires le_h { (1 ≤ sizes.h) × ((sizes.h ≤ 3) × (sizes.z ≤ 5)) }
    requires first_bound { (first.0 < 2 ^ sizes.h) × (second.0 < 2 ^ sizes.h) }
{
    let mut list = [99u64; 12];
    let counts = lists::list_pair(sizes, first, second, &mut list);
    list_lines(rt, text, &list, counts, sizes.z)
}

fn path_line(rt: &impl Print, text: &str, sizes: Sizes, leaf: Leaf) -> io::Result<()>
    requires le_h { (1 ≤ sizes.h) × ((sizes.h ≤ 3) × (sizes.z ≤ 5)) }
    requires leaf_bound { leaf.0 < 2 ^ sizes.h }
{
    let mut list = [99u64; 12];
    let counts = lists::list_path(sizes, leaf, &mut list);
    list_lines(rt, text, &list, counts, sizes.z)
}

// P12 and P11; and height 3, where the order of an Insert's siblings shows.
pub(crate) fn lists(rt: &impl Print) -> io::Result<()> {
    pair_line(
        rt,
        "insert with leaves 1 and 2, height 2:",
        TWO,
        Leaf(1),
        Leaf(2),
    )?;
    path_line(rt, "extract of label 0, height 2:", TWO, Leaf(0))?;
    let three = Sizes {
        h: 3,
        z: 2,
        r: 1,
        t: 16,
    };
    pair_line(
        rt,
        "insert with leaves 1 and 6, height 3:",
        three,
        Leaf(1),
        Leaf(6),
    )?;
    path_line(rt, "delete of label 5, height 3:", three, Leaf(5))
}
