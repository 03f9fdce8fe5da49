// Cards that just pass: what BadCard must not refuse.
use crate::cards::TOP;
use crate::forged::{counts, each, least, slot, waiting};
use crate::named::{BARE, CROWDED, EMPTIED, FRESH, FULL, HELD, SPENT};
use crate::requests::{delete, insert};
use crate::{calls, cards, named};
use request::Request;
use std::io;

fn good_counts(rt: &(impl Print + Input)) -> io::Result<()> {
    // good
    each(rt, HELD)?;
    // t = T
    each(rt, SPENT)?;
    // t = T - 1
    counts(rt, HELD, 15, 2)?;
    // c = N
    each(rt, FULL)?;
    // c = t
    counts(rt, HELD, 2, 2)?;
    // c = 0
    each(rt, EMPTIED)
}

// The dummy is no record, though its stamp is 0.
fn stamp_0(rt: &(impl Print + Input)) -> io::Result<()> {
    let card = cards::slot(named::card(HELD), 0, 5, 50, 0, 0);
    // stamp 0 beside dummies
    calls::each(rt, cards::least(card, 5, 50, 0, 0))
}

fn good_slots(rt: &(impl Print + Input)) -> io::Result<()> {
    stamp_0(rt)?;
    // label N - 1, stamp t - 1
    slot(rt, 1, 6, 60, 3, 4)?;
    // key 2^64 - 2
    slot(rt, 1, TOP - 1, 60, 1, 2)?;
    // as many root records as c
    each(rt, CROWDED)
}

// Nothing is asked of the least record's value, nor that it stand in the root.
fn good_least(rt: &(impl Print + Input)) -> io::Result<()> {
    // least below the root
    each(rt, BARE)?;
    // least ties, another value
    least(rt, HELD, 5, 51, 0, 1)?;
    // least ties, another label
    least(rt, HELD, 5, 50, 3, 1)?;
    // least before by key
    least(rt, HELD, 4, 40, 3, 2)?;
    // least before by stamp
    least(rt, HELD, 5, 50, 0, 0)
}

fn good_waiting(rt: &(impl Print + Input)) -> io::Result<()> {
    // Insert waits
    waiting(rt, HELD, insert(6, 1, 1, 2))?;
    // ExtractMin waits
    waiting(rt, HELD, Request::Extract)?;
    // Delete waits
    waiting(rt, HELD, delete(0, 1))?;
    // Insert waits, c = 0
    waiting(rt, FRESH, insert(6, 1, 1, 2))?;
    // Delete waits, c = 0
    waiting(rt, EMPTIED, delete(0, 1))?;
    // ExtractMin waits, c = N
    waiting(rt, FULL, Request::Extract)?;
    // ExtractMin waits, root full
    waiting(rt, CROWDED, Request::Extract)
}

pub(crate) fn good(rt: &(impl Print + Input)) -> io::Result<()> {
    good_counts(rt)?;
    good_slots(rt)?;
    good_least(rt)?;
    good_waiting(rt)
}
