// One request after the other: begin, fetch, finish, store, each call on the card where it is lent.
use crate::told;
use answers::Answer;
use card::Card;
use record::{Leaf, Stamp};
use request::Request;
use std::io;

// What was listed is fetched, worked on and stored back; a refused begin is answered as it is.
fn round(rt: &impl Print, card: Card, tree: &mut [u64], request: Request) -> io::Result<Card> {
    let mut list = [0u64; 6];
    let begun = lender::begin(card, request, &mut list);
    let Answer::Listed(n) = begun.answer else {
        return told(rt, begun);
    };
    let mut words = [0u64; 44];
    let _ = rack::fetch(2, 1, tree, &list, n.whole, n.least, &mut words);
    let done = lender::finish(begun.card, &mut words);
    let _ = rack::store(2, 1, tree, &list, n.whole, n.least, &words);
    told(rt, done)
}

// Inserts of the sample have the leaves 1 and 2 to evict.
fn insert(key: u64, value: u64, label: u64) -> Request {
    Request::Insert {
        key,
        value,
        label: Leaf(label),
        first: Leaf(1),
        second: Leaf(2),
    }
}

const DELETE: Request = Request::Delete {
    label: Leaf(0),
    stamp: Stamp(0),
};

fn rounds(rt: &impl Print, card: Card, tree: &mut [u64], requests: &[Request]) -> io::Result<Card> {
    let mut card = card;
    for &request in requests {
        card = round(rt, card, tree, request)?;
    }
    Ok(card)
}

// Lines 2 to 4 of the sample: the last finds the root full.
pub(crate) fn insertions(rt: &impl Print, fresh: Card, tree: &mut [u64]) -> io::Result<Card> {
    let requests = [insert(7, 70, 0), insert(5, 50, 0), insert(6, 60, 3)];
    rounds(rt, fresh, tree, &requests)
}

// Lines 6 to 9: the second Delete finds nothing, and then no event is left.
pub(crate) fn removals(rt: &impl Print, full: Card, tree: &mut [u64]) -> io::Result<Card> {
    let requests = [Request::Extract, DELETE, DELETE, Request::Extract];
    rounds(rt, full, tree, &requests)
}
