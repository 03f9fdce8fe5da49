// BadCard: "a waiting request that begin would refuse (numbers 4 to 10)". Each card is good but for the request that waits,
// and its name has the number that begin would give.
use crate::forged::waiting;
use crate::named::{CROWDED, EMPTIED, FULL, HELD, SPENT};
use crate::requests::{delete, insert};
use record::DUMMY_KEY;
use request::Request;
use std::io;

pub(crate) fn bad_waiting(rt: &(impl Print + Input)) -> io::Result<()> {
    // Insert waits, 4
    waiting(rt, SPENT, insert(6, 1, 1, 2))?;
    // ExtractMin waits, 4
    waiting(rt, SPENT, Request::Extract)?;
    // Delete waits, 4
    waiting(rt, SPENT, delete(0, 1))?;
    // Insert waits, 5
    waiting(rt, HELD, insert(DUMMY_KEY, 1, 1, 2))?;
    // Insert waits, 6, label
    waiting(rt, HELD, insert(6, 4, 1, 2))?;
    // Insert waits, 6, first leaf
    waiting(rt, HELD, insert(6, 1, 2, 2))?;
    // Insert waits, 6, second low
    waiting(rt, HELD, insert(6, 1, 1, 1))?;
    // Insert waits, 6, second high
    waiting(rt, HELD, insert(6, 1, 1, 4))?;
    // Delete waits, 6
    waiting(rt, HELD, delete(4, 1))?;
    // Delete waits, 7
    waiting(rt, HELD, delete(0, 5))?;
    // ExtractMin waits, 8
    waiting(rt, EMPTIED, Request::Extract)?;
    // Insert waits, 9
    waiting(rt, FULL, insert(6, 1, 1, 2))?;
    // Insert waits, 10
    waiting(rt, CROWDED, insert(6, 1, 1, 2))
}
