// Cards to call: started ones, and forged ones, which differ from a good card in the numbers that are given.
ghost use Rattle.std.specs.Prelude.{◌<◌, ◌≤◌};

use card::Card;
use path::Sizes;
use record::{Leaf, Record, Stamp};
use request::Request;

// 2^64 - 1, the greatest number that a field can hold.
pub(crate) const TOP: u64 = 18446744073709551615;

pub(crate) fn started(h: u64, z: u64, r: u64, t: u64) -> Card {
    Card::start(h, z, r, t).card
}

// N = 4, two root slots, T = 16; nothing finished.
pub(crate) fn fresh() -> Card {
    started(2, 1, 2, 16)
}

// Sixty-four live events, the first n of them in a root of 64 slots; N = 128.
pub(crate) fn large(n: usize) -> Card
    requires { n ≤ 64 }
{
    let card = started(7, 1, 64, 128);
    let mut root = card.root;
    for i in 0..n {
        let k = i as u64;
        root[i] = Record::proper(k, 0, Leaf(k), Stamp(k));
    }
    let filled = Card { root, ..card };
    least(counts(filled, 64, 64), 0, 0, 0, 0)
}

pub(crate) fn sized(card: Card, h: u64, z: u64, r: u64, t: u64) -> Card {
    let sizes = Sizes { h, z, r, t };
    Card { sizes, ..card }
}

pub(crate) fn counts(card: Card, t: u64, c: u64) -> Card {
    Card { t, c, ..card }
}

pub(crate) fn slot(card: Card, i: usize, key: u64, value: u64, label: u64, stamp: u64) -> Card
    requires { i < 64 }
{
    let mut root = card.root;
    root[i] = Record::proper(key, value, Leaf(label), Stamp(stamp));
    Card { root, ..card }
}

pub(crate) fn least(card: Card, key: u64, value: u64, label: u64, stamp: u64) -> Card {
    let record = Record::proper(key, value, Leaf(label), Stamp(stamp));
    Card {
        least: record,
        ..card
    }
}

pub(crate) fn waiting(card: Card, request: Request) -> Card {
    Card {
        waiting: Some(request),
        ..card
    }
}
