// The cards that stand in several lines of the table, by name, so that a line says which card it is about. Each is told by what
// stands in it, from which one function forges it.
use crate::cards;
use card::Card;
use record::{Leaf, Record, Stamp};
use request::Request;

// N = 4, two root slots, T = 16, and what else tells the cards apart.
#[derive(Clone, Copy)]
pub(crate) struct Like {
    // the root's slots
    root: [Record; 2],
    least: Record,
    t: u64,
    c: u64,
    waits: Option<Request>,
}

const FIRST: Record = Record {
    key: 5,
    value: 50,
    label: Leaf(0),
    stamp: Stamp(1),
};

const SECOND: Record = Record {
    key: 6,
    value: 60,
    label: Leaf(1),
    stamp: Stamp(2),
};

// A least record that is not in the root.
const ELSEWHERE: Record = Record {
    key: 4,
    value: 40,
    label: Leaf(3),
    stamp: Stamp(2),
};

// Nothing finished.
pub(crate) const FRESH: Like = Like {
    root: [Record::DUMMY, Record::DUMMY],
    least: Record::DUMMY,
    t: 0,
    c: 0,
    waits: None,
};

// Five requests finished and two events live, one in the root's slot 0 and one somewhere below; slot 1 is free.
pub(crate) const HELD: Like = Like {
    root: [FIRST, Record::DUMMY],
    least: FIRST,
    t: 5,
    c: 2,
    waits: None,
};

// HELD with no record in the root.
pub(crate) const BARE: Like = Like {
    root: [Record::DUMMY, Record::DUMMY],
    ..HELD
};

// HELD with both root slots real.
pub(crate) const CROWDED: Like = Like {
    root: [FIRST, SECOND],
    ..HELD
};

pub(crate) const EMPTIED: Like = Like { t: 5, ..FRESH };

// HELD with c = N.
pub(crate) const FULL: Like = Like { c: 4, ..HELD };

// CROWDED with c = N.
pub(crate) const FULL_CROWDED: Like = Like { c: 4, ..CROWDED };

// HELD with t = T.
pub(crate) const SPENT: Like = Like { t: 16, ..HELD };

// T = T with c = 0, with c = N, and with both root slots real.
pub(crate) const SPENT_EMPTIED: Like = Like { t: 16, ..EMPTIED };

pub(crate) const SPENT_FULL: Like = Like { t: 16, ..FULL };

pub(crate) const SPENT_CROWDED: Like = Like { t: 16, ..CROWDED };

// HELD with a least record that is not in the root.
pub(crate) const BELOW: Like = Like {
    least: ELSEWHERE,
    ..HELD
};

// HELD, FULL, CROWDED and SPENT with a waiting ExtractMin, and FRESH with a waiting Insert.
pub(crate) const BUSY: Like = Like {
    waits: Some(Request::Extract),
    ..HELD
};

pub(crate) const BUSY_FULL: Like = Like {
    waits: Some(Request::Extract),
    ..FULL
};

pub(crate) const BUSY_CROWDED: Like = Like {
    waits: Some(Request::Extract),
    ..CROWDED
};

pub(crate) const BUSY_SPENT: Like = Like {
    waits: Some(Request::Extract),
    ..SPENT
};

pub(crate) const BUSY_FRESH: Like = Like {
    waits: Some(Request::Insert {
        key: 6,
        value: 60,
        label: Leaf(1),
        first: Leaf(1),
        second: Leaf(2),
    }),
    ..FRESH
};

// HELD with c above N.
pub(crate) const BAD: Like = Like { c: 5, ..HELD };

// The same with a waiting Delete, with t = T, and with c = 0.
pub(crate) const BAD_BUSY: Like = Like {
    waits: Some(Request::Delete {
        label: Leaf(0),
        stamp: Stamp(1),
    }),
    ..BAD
};

pub(crate) const BAD_SPENT: Like = Like { t: 16, ..BAD };

pub(crate) const BAD_EMPTIED: Like = Like { c: 0, ..HELD };

pub(crate) fn card(like: Like) -> Card {
    let fresh = cards::fresh();
    let mut root = fresh.root;
    root[0] = like.root[0];
    root[1] = like.root[1];
    Card {
        root,
        least: like.least,
        t: like.t,
        c: like.c,
        waiting: like.waits,
        ..fresh
    }
}
