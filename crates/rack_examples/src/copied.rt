// What fill, fetch and store leave. With height 2 and one slot there are the buckets 2 to 7, of 8 words each.
ghost use Rattle.std.specs.Prelude.{◌+◌, ◌*◌, ◌≤◌, length};

use crate::line;
use refusal::number_of;
use std::io;

// The list of P12: four whole buckets, then two siblings.
pub(crate) const P12: [u64; 6] = [2, 5, 3, 6, 4, 7];

pub(crate) fn fresh(rt: &impl Print) -> io::Result<()> {
    let mut tree = [7u64; 16];
    let done = rack::fill(&mut tree, 1, 1);
    println!(rt; "fill of height 1 with 1 slot: {}", number_of(done))?;
    line::parts(rt, "bucket", &[2u64, 3], 8, &tree)
}

// The words fetched for a list whose first `whole` numbers are whole, and those past it.
fn fetch_lines(rt: &impl Print, list: &[u64], whole: usize, words: &[u64]) -> io::Result<()>
    requires { (whole ≤ length list.now) × (4 * (whole + length list.now) ≤ length words.now) }
{
    let split = 8 * whole;
    let end = split + 4 * (list.len() - whole);
    line::parts(rt, "bucket", &list[0..whole], 8, words)?;
    line::parts(rt, "least of", &list[whole..], 4, &words[split..])?;
    line::words(rt, "past the list:", &words[end..])
}

pub(crate) fn fetched(rt: &impl Print) -> io::Result<()> {
    let mut tree = [7u64; 48];
    let _ = rack::fill(&mut tree, 2, 1);
    let list = P12;
    let mut words = [9u64; 44];
    let done = rack::fetch(2, 1, &tree, &list, 4, 2, &mut words);
    println!(rt;
        "fetch of the list of P12 in a fresh tree: {}",
        number_of(done)
    )?;
    fetch_lines(rt, &list, 4, &words)
}

// Numbers that follow each other, so that each word shows where it came from.
fn number_from(words: &mut [u64], first: u64)
    requires { first + length words.old ≤ 1000 }
{
    for (i, word) in words.iter_mut().enumerate() {
        *word = first + i as u64;
    }
}

fn store_from(
    rt: &impl Print,
    text: &str,
    tree: &mut [u64],
    list: &[u64],
    whole: usize,
    least: usize,
    first: u64,
) -> io::Result<()>
    requires { first ≤ 900 }
{
    let mut words = [9u64; 44];
    number_from(&mut words, first);
    let done = rack::store(2, 1, tree, list, whole, least, &words);
    println!(rt; "{text} {}", number_of(done))
}

pub(crate) fn stored(rt: &impl Print) -> io::Result<()> {
    let mut tree = [7u64; 48];
    let _ = rack::fill(&mut tree, 2, 1);
    let list = P12;
    store_from(
        rt,
        "store of changed words by the list of P12:",
        &mut tree,
        &list,
        4,
        2,
        100,
    )?;
    line::parts(rt, "bucket", &[2u64, 3, 4, 5, 6, 7], 8, &tree)?;
    fetched_again(rt, &tree)?;
    stored_twice(rt, &mut tree)
}

fn fetched_again(rt: &impl Print, tree: &[u64]) -> io::Result<()> {
    let list = [6u64, 2, 5];
    let mut words = [9u64; 24];
    let done = rack::fetch(2, 1, tree, &list, 2, 1, &mut words);
    println!(rt;
        "fetch of 6 and 2 whole, of 5 the least record: {}",
        number_of(done)
    )?;
    fetch_lines(rt, &list, 2, &words)
}

// "of one number named twice the later store stands"
fn stored_twice(rt: &impl Print, tree: &mut [u64]) -> io::Result<()> {
    store_from(rt, "store of bucket 2 twice:", tree, &[2u64, 2], 2, 0, 200)?;
    line::parts(rt, "bucket", &[2u64, 3], 8, tree)?;
    fetched_twice(rt, tree)
}

fn fetched_twice(rt: &impl Print, tree: &[u64]) -> io::Result<()> {
    let list = [2u64, 2];
    let mut words = [9u64; 16];
    let done = rack::fetch(2, 1, tree, &list, 2, 0, &mut words);
    println!(rt; "fetch of bucket 2 twice: {}", number_of(done))?;
    line::parts(rt, "bucket", &list, 8, &words)
}
