// BadCard, clause by clause. Each card differs from a good one in what its name says, and but for numbers of 2^64 - 1 in
// nothing that another clause would refuse.
use crate::cards::TOP;
use crate::forged::{counts, least, sized, slot};
use crate::named::{BARE, CROWDED, HELD};
use record::DUMMY_KEY;
use std::io;

fn bad_sizes(rt: &(impl Print + Input)) -> io::Result<()> {
    // height 0
    sized(rt, 0, 1, 2, 16)?;
    // height 17
    sized(rt, 17, 1, 2, 4294967295)?;
    // every size 2^64 - 1
    sized(rt, TOP, TOP, TOP, TOP)?;
    // Z 0
    sized(rt, 2, 0, 2, 16)?;
    // Z 6
    sized(rt, 2, 6, 2, 16)?;
    // R 0
    sized(rt, 2, 1, 0, 16)?;
    // R 65
    sized(rt, 2, 1, 65, 16)?;
    // T below N
    sized(rt, 2, 1, 2, 3)?;
    // T 2^32
    sized(rt, 2, 1, 2, 4294967296)
}

fn bad_counts(rt: &(impl Print + Input)) -> io::Result<()> {
    // t above T
    counts(rt, HELD, 17, 2)?;
    // t 2^64 - 1
    counts(rt, HELD, TOP, 2)?;
    // c above N
    counts(rt, HELD, 5, 5)?;
    // c above t
    counts(rt, HELD, 3, 4)?;
    // c 2^64 - 1
    counts(rt, HELD, 5, TOP)
}

fn bad_slots(rt: &(impl Print + Input)) -> io::Result<()> {
    // a slot with stamp t
    slot(rt, 1, 6, 60, 1, 5)?;
    // a slot with label N
    slot(rt, 1, 6, 60, 4, 2)?;
    // a slot with the dummy's key and a value
    slot(rt, 1, DUMMY_KEY, 1, 0, 0)?;
    // a slot with the dummy's key and a stamp
    slot(rt, 1, DUMMY_KEY, 0, 0, 2)?;
    // two root records with one stamp
    slot(rt, 1, 6, 60, 1, 1)?;
    // two root records, c = 1
    counts(rt, CROWDED, 5, 1)?;
    // slot R used
    slot(rt, 2, 6, 60, 1, 2)?;
    // the last place used
    slot(rt, 63, 6, 60, 1, 2)?;
    // slot R all zeros
    slot(rt, 2, 0, 0, 0, 0)?;
    // slot R with the dummy's key and a value
    slot(rt, 2, DUMMY_KEY, 1, 0, 0)
}

// Where the root has no record, a least record cannot be greater than one.
fn bad_least(rt: &(impl Print + Input)) -> io::Result<()> {
    // least dummy, c = 2
    least(rt, BARE, DUMMY_KEY, 0, 0, 0)?;
    // least a record, c = 0
    counts(rt, BARE, 5, 0)?;
    // least with the dummy's key and a value
    least(rt, BARE, DUMMY_KEY, 1, 0, 0)?;
    // least with label N
    least(rt, BARE, 5, 50, 4, 1)?;
    // least with stamp t
    least(rt, BARE, 5, 50, 0, 5)?;
    // least greater by key
    least(rt, HELD, 6, 60, 0, 1)?;
    // least greater by stamp
    least(rt, HELD, 5, 50, 0, 2)?;
    // least greater than slot 1
    slot(rt, 1, 4, 40, 1, 2)
}

pub(crate) fn bad(rt: &(impl Print + Input)) -> io::Result<()> {
    bad_sizes(rt)?;
    bad_counts(rt)?;
    bad_slots(rt)?;
    bad_least(rt)
}
