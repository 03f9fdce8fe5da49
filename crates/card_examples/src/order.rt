// Where two refusals apply: "Order on the card: 13, 2 or 3, 4, 5, 6, 7, 8, 9, 10, 11, 12". A name has the two, the one that is
// given first.
use crate::named::{
    BAD, BAD_BUSY, BAD_EMPTIED, BAD_SPENT, BUSY, BUSY_CROWDED, BUSY_FRESH, BUSY_FULL, BUSY_SPENT,
    CROWDED, FRESH, FULL, FULL_CROWDED, HELD, SPENT, SPENT_CROWDED, SPENT_EMPTIED, SPENT_FULL,
};
use crate::requests::{delete, insert};
use crate::tries::{begin, min, short, withdraw};
use record::DUMMY_KEY;
use request::Request;
use std::io;

// A request that waits where t = T is itself what 13 names, so that 2 and 4 never meet on a good card.
fn after_13(rt: &(impl Print + Input)) -> io::Result<()> {
    // 13 and 2
    begin(rt, BAD_BUSY, insert(6, 1, 1, 2))?;
    // 13 and 3
    withdraw(rt, BAD)?;
    // 13 and 4
    begin(rt, BAD_SPENT, insert(6, 1, 1, 2))?;
    // 13 and 5
    begin(rt, BAD, insert(DUMMY_KEY, 1, 1, 2))?;
    // 13 and 6
    begin(rt, BAD, insert(6, 4, 1, 2))?;
    // 13 and 7
    begin(rt, BAD, delete(0, 5))?;
    // 13 and 8
    min(rt, BAD_EMPTIED)?;
    // 13 and 11
    short(rt, BAD, insert(6, 1, 1, 2))?;
    // 13, 2 and 4
    begin(rt, BUSY_SPENT, Request::Extract)
}

fn after_2(rt: &(impl Print + Input)) -> io::Result<()> {
    // 2 and 5
    begin(rt, BUSY, insert(DUMMY_KEY, 1, 1, 2))?;
    // 2 and 6
    begin(rt, BUSY, insert(6, 4, 1, 2))?;
    // 2 and 7
    begin(rt, BUSY, delete(0, 5))?;
    // 2 and 8
    begin(rt, BUSY_FRESH, Request::Extract)?;
    // 2 and 8, FindMin
    min(rt, BUSY_FRESH)?;
    // 2 and 9
    begin(rt, BUSY_FULL, insert(6, 1, 1, 2))?;
    // 2 and 10
    begin(rt, BUSY_CROWDED, insert(6, 1, 1, 2))?;
    // 2 and 11
    short(rt, BUSY, insert(6, 1, 1, 2))
}

fn after_4(rt: &(impl Print + Input)) -> io::Result<()> {
    // 4 and 5
    begin(rt, SPENT, insert(DUMMY_KEY, 1, 1, 2))?;
    // 4 and 6
    begin(rt, SPENT, insert(6, 4, 1, 2))?;
    // 4 and 6, Delete
    begin(rt, SPENT, delete(4, 1))?;
    // 4 and 7
    begin(rt, SPENT, delete(0, 16))?;
    // 4 and 8
    begin(rt, SPENT_EMPTIED, Request::Extract)?;
    // 4 and 9
    begin(rt, SPENT_FULL, insert(6, 1, 1, 2))?;
    // 4 and 10
    begin(rt, SPENT_CROWDED, insert(6, 1, 1, 2))?;
    // 4 and 11
    short(rt, SPENT, Request::Extract)
}

fn after_5_and_6(rt: &(impl Print + Input)) -> io::Result<()> {
    // 5 and 6
    begin(rt, HELD, insert(DUMMY_KEY, 4, 1, 2))?;
    // 5 and 9
    begin(rt, FULL, insert(DUMMY_KEY, 1, 1, 2))?;
    // 5 and 10
    begin(rt, CROWDED, insert(DUMMY_KEY, 1, 1, 2))?;
    // 5 and 11
    short(rt, HELD, insert(DUMMY_KEY, 1, 1, 2))?;
    // 6 and 7
    begin(rt, HELD, delete(4, 5))?;
    // 6 and 9
    begin(rt, FULL, insert(6, 4, 1, 2))?;
    // 6 and 9, by a leaf
    begin(rt, FULL, insert(6, 1, 1, 4))?;
    // 6 and 10
    begin(rt, CROWDED, insert(6, 1, 2, 2))?;
    // 6 and 11
    short(rt, HELD, insert(6, 1, 1, 1))
}

fn after_7(rt: &(impl Print + Input)) -> io::Result<()> {
    // 7 and 11
    short(rt, HELD, delete(0, 5))?;
    // 8 and 11
    short(rt, FRESH, Request::Extract)?;
    // 9 and 10
    begin(rt, FULL_CROWDED, insert(6, 1, 1, 2))?;
    // 9 and 11
    short(rt, FULL, insert(6, 1, 1, 2))?;
    // 10 and 11
    short(rt, CROWDED, insert(6, 1, 1, 2))
}

pub(crate) fn order(rt: &(impl Print + Input)) -> io::Result<()> {
    after_13(rt)?;
    after_2(rt)?;
    after_4(rt)?;
    after_5_and_6(rt)?;
    after_7(rt)
}
