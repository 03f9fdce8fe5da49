// One request after the other: begin, fetch, finish, store.
ghost use Rattle.std.specs.Prelude.{◌≤◌};

use crate::line;
use answers::Answer;
use card::{Card, Done};
use record::{Leaf, Stamp};
use request::Request;
use std::io;

// The answer is printed, and the card goes on.
fn told(rt: &impl Print, done: Done) -> io::Result<Card> {
    line::answer(rt, done.answer)?;
    Ok(done.card)
}

// What was listed is fetched, worked on and stored back.
fn worked(card: Card, list: &[u64], whole: usize, least: usize, tree: &mut [u64]) -> Done {
    let mut words = [0u64; 44];
    let _ = rack::fetch(2, 1, tree, list, whole, least, &mut words);
    let done = card.finish(&mut words);
    let _ = rack::store(2, 1, tree, list, whole, least, &words);
    done
}

// A refused begin is answered as it is.
fn round(rt: &impl Print, begun: Done, list: &[u64], tree: &mut [u64]) -> io::Result<Card> {
    match begun.answer {
        Answer::Listed(n) => told(rt, worked(begun.card, list, n.whole, n.least, tree)),
        _ => told(rt, begun),
    }
}

fn insert(
    rt: &impl Print,
    card: Card,
    tree: &mut [u64],
    key: u64,
    value: u64,
    label: Leaf,
) -> io::Result<Card> {
    let mut list = [0u64; 6];
    let request = Request::Insert {
        key,
        value,
        label,
        first: Leaf(1),
        second: Leaf(2),
    };
    let begun = card.begin(request, &mut list);
    round(rt, begun, &list, tree)
}

fn extract(rt: &impl Print, card: Card, tree: &mut [u64]) -> io::Result<Card> {
    let mut list = [0u64; 4];
    let begun = card.begin(Request::Extract, &mut list);
    line::numbers(rt, &list)?;
    round(rt, begun, &list, tree)
}

fn delete(
    rt: &impl Print,
    card: Card,
    tree: &mut [u64],
    label: Leaf,
    stamp: Stamp,
) -> io::Result<Card> {
    let mut list = [0u64; 4];
    let begun = card.begin(Request::Delete { label, stamp }, &mut list);
    round(rt, begun, &list, tree)
}

// The words of a bucket: with height 2 and one slot, the buckets 2 to 7 have 8 words each.
fn bucket(rt: &impl Print, tree: &[u64], number: usize) -> io::Result<()>
    requires { 2 ≤ number }
{
    match tree.chunks_exact(8).nth(number - 2) {
        Some(words) => line::numbers(rt, words),
        None => Ok(()),
    }
}

// The third finds the root full.
pub(crate) fn insertions(rt: &impl Print, fresh: Card, tree: &mut [u64]) -> io::Result<Card> {
    let one = insert(rt, fresh, tree, 7, 70, Leaf(0))?;
    bucket(rt, tree, 2)?;
    let two = insert(rt, one, tree, 5, 50, Leaf(0))?;
    insert(rt, two, tree, 6, 60, Leaf(3))
}

pub(crate) fn least(rt: &impl Print, card: Card) -> io::Result<()> {
    told(rt, card.find_min())?;
    Ok(())
}

// The event that is the least, and the buckets that it leaves.
pub(crate) fn extraction(rt: &impl Print, full: Card, tree: &mut [u64]) -> io::Result<Card> {
    let one = extract(rt, full, tree)?;
    bucket(rt, tree, 2)?;
    bucket(rt, tree, 4)?;
    Ok(one)
}

// The second Delete finds nothing, and then no event is left.
pub(crate) fn removals(rt: &impl Print, card: Card, tree: &mut [u64]) -> io::Result<()> {
    let one = delete(rt, card, tree, Leaf(0), Stamp(0))?;
    let two = delete(rt, one, tree, Leaf(0), Stamp(0))?;
    extract(rt, two, tree)?;
    Ok(())
}
