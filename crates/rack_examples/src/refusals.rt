// Each refusal, alone and beside a later one. A tree of sevens and words of nines show what was changed: nothing, where a
// call is refused.
use crate::copied::P12;
use crate::line;
use refusal::number_of;
use std::io;

const TOP: u64 = 18446744073709551615;

const HALF: u64 = 9223372036854775808;

// How many of the words are not `n`.
fn others(words: &[u64], n: u64) -> u64 {
    words.iter().filter(|&&word| word != n).count() as u64
}

// The number of a fetch, of a store, and how many of the words and of the tree's words they changed.
fn copy_in(
    h: u64,
    z: u64,
    tree: &mut [u64],
    list: &[u64],
    whole: usize,
    least: usize,
    words: &mut [u64],
) -> [u64; 4] {
    let first = rack::fetch(h, z, tree, list, whole, least, words);
    let second = rack::store(h, z, tree, list, whole, least, words);
    [
        number_of(first),
        number_of(second),
        others(words, 9),
        others(tree, 7),
    ]
}

// A fetch and a store for these: h, Z, the tree's words, both counts and the words.
fn copy_line(rt: &impl Print, text: &str, case: [u64; 6], list: &[u64]) -> io::Result<()> {
    let [h, z, tree_words, whole, least, words] = case;
    let mut tree = [7u64; 64];
    let mut fetched = [9u64; 64];
    if tree_words > 64 || words > 64 {
        return Ok(());
    }
    let said = copy_in(
        h,
        z,
        &mut tree[..tree_words as usize],
        list,
        whole as usize,
        least as usize,
        &mut fetched[..words as usize],
    );
    line::words(rt, text, &said)
}

pub(crate) fn copies(rt: &impl Print) -> io::Result<()> {
    println!(rt; "fetch, store, words changed, tree words changed")?;
    let list = P12;
    taken(rt, &list)?;
    sizes(rt, &list)?;
    rooms(rt, &list)?;
    buckets(rt)?;
    let late = [2u64, 5, 3, 6, 4, 8];
    siblings(rt, &late)?;
    pairs(rt, &late)
}

fn taken(rt: &impl Print, list: &[u64]) -> io::Result<()> {
    copy_line(rt, "the list of P12:", [2, 1, 48, 4, 2, 40], list)?;
    copy_line(rt, "nothing asked for:", [2, 1, 48, 0, 0, 0], list)
}

fn sizes(rt: &impl Print, list: &[u64]) -> io::Result<()> {
    copy_line(rt, "height 0:", [0, 1, 48, 4, 2, 40], list)?;
    copy_line(rt, "height 17:", [17, 1, 48, 4, 2, 40], list)?;
    copy_line(rt, "height 2^64 - 1:", [TOP, 1, 48, 4, 2, 40], list)?;
    copy_line(rt, "no slots:", [2, 0, 48, 4, 2, 40], list)?;
    copy_line(rt, "6 slots:", [2, 6, 48, 4, 2, 40], list)
}

fn rooms(rt: &impl Print, list: &[u64]) -> io::Result<()> {
    copy_line(rt, "a tree one word short:", [2, 1, 47, 4, 2, 40], list)?;
    copy_line(rt, "a tree one word long:", [2, 1, 49, 4, 2, 40], list)?;
    copy_line(rt, "one count too many:", [2, 1, 48, 4, 3, 44], list)?;
    copy_line(
        rt,
        "whole 2^64 - 1 and least 2:",
        [2, 1, 48, TOP, 2, 40],
        list,
    )?;
    copy_line(
        rt,
        "whole 1 and least 2^64 - 1:",
        [2, 1, 48, 1, TOP, 40],
        list,
    )?;
    copy_line(rt, "both counts 2^63:", [2, 1, 48, HALF, HALF, 40], list)?;
    copy_line(rt, "words one short:", [2, 1, 48, 4, 2, 39], list)?;
    copy_line(rt, "words for the whole only:", [2, 1, 48, 4, 2, 32], list)
}

// Two numbers, both whole.
fn bucket_line(rt: &impl Print, text: &str, list: &[u64]) -> io::Result<()> {
    copy_line(rt, text, [2, 1, 48, 2, 0, 16], list)
}

fn buckets(rt: &impl Print) -> io::Result<()> {
    bucket_line(rt, "bucket 0:", &[2u64, 0])?;
    bucket_line(rt, "bucket 1:", &[1u64, 2])?;
    bucket_line(rt, "bucket 8:", &[2u64, 8])?;
    bucket_line(rt, "bucket 2^64 - 1:", &[TOP, 2])
}

fn siblings(rt: &impl Print, list: &[u64]) -> io::Result<()> {
    copy_line(rt, "a sibling 8:", [2, 1, 48, 4, 2, 40], list)?;
    copy_line(rt, "8 past the counts:", [2, 1, 48, 4, 1, 40], list)
}

// Two that apply at once: the earlier in the paper's order is given.
fn pairs(rt: &impl Print, list: &[u64]) -> io::Result<()> {
    copy_line(rt, "1 before 11:", [0, 1, 47, 4, 1, 40], list)?;
    copy_line(rt, "1 before 14:", [2, 6, 48, 4, 2, 40], list)?;
    copy_line(
        rt,
        "a tree of another length before 14:",
        [2, 1, 47, 4, 2, 40],
        list,
    )?;
    copy_line(rt, "counts before 14:", [2, 1, 48, 4, 3, 44], list)?;
    copy_line(rt, "words before 14:", [2, 1, 48, 4, 2, 39], list)
}

fn fill_in(rt: &impl Print, text: &str, h: u64, tree: &mut [u64]) -> io::Result<()> {
    let done = rack::fill(tree, h, 1);
    println!(rt; "{text} {} {}", number_of(done), others(tree, 7))
}

fn fill_line(rt: &impl Print, text: &str, h: u64, tree_words: usize) -> io::Result<()> {
    let mut tree = [7u64; 64];
    if tree_words > 64 {
        return Ok(());
    }
    fill_in(rt, text, h, &mut tree[..tree_words])
}

pub(crate) fn fills(rt: &impl Print) -> io::Result<()> {
    println!(rt; "fill, tree words changed")?;
    fill_line(rt, "height 0:", 0, 48)?;
    fill_line(rt, "47 words:", 2, 47)?;
    fill_line(rt, "height 17 and 47 words:", 17, 47)?;
    fill_line(rt, "48 words:", 2, 48)
}
