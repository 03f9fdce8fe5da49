// Each refusal of a call on a good card, and the fields that just pass.
ghost use Rattle.std.specs.Prelude.{◌≤◌};

use crate::cards::TOP;
use crate::named::{BUSY, CROWDED, EMPTIED, FRESH, FULL, HELD, SPENT};
use crate::requests::{delete, insert};
use crate::tries::{begin, begin_in, min, short, withdraw};
use crate::{calls, cards, named};
use record::DUMMY_KEY;
use request::Request;
use std::io;

fn busy_and_idle(rt: &(impl Print + Input)) -> io::Result<()> {
    // 2, Insert
    begin(rt, BUSY, insert(6, 1, 1, 2))?;
    // 2, ExtractMin
    begin(rt, BUSY, Request::Extract)?;
    // 2, Delete
    begin(rt, BUSY, delete(0, 1))?;
    // 2, FindMin
    min(rt, BUSY)?;
    // 3, withdraw
    withdraw(rt, HELD)
}

// FindMin is not refused by Spent.
fn spent(rt: &(impl Print + Input)) -> io::Result<()> {
    // 4, Insert
    begin(rt, SPENT, insert(6, 1, 1, 2))?;
    // 4, ExtractMin
    begin(rt, SPENT, Request::Extract)?;
    // 4, Delete
    begin(rt, SPENT, delete(0, 1))?;
    // t = T, FindMin
    min(rt, SPENT)
}

fn fields_of_insert(rt: &(impl Print + Input)) -> io::Result<()> {
    // 5, key 2^64 - 1
    begin(rt, HELD, insert(DUMMY_KEY, 1, 1, 2))?;
    // key 2^64 - 2
    begin(rt, HELD, insert(TOP - 1, 1, 1, 2))?;
    // 6, label N
    begin(rt, HELD, insert(6, 4, 1, 2))?;
    // 6, label 2^64 - 1
    begin(rt, HELD, insert(6, TOP, 1, 2))?;
    // 6, first leaf N/2
    begin(rt, HELD, insert(6, 1, 2, 2))?;
    // 6, second leaf N/2 - 1
    begin(rt, HELD, insert(6, 1, 1, 1))?;
    // 6, second leaf N
    begin(rt, HELD, insert(6, 1, 1, 4))?;
    // 6, leaves exchanged
    begin(rt, HELD, insert(6, 1, 2, 1))?;
    // label 3, leaves 1 and 3
    begin(rt, HELD, insert(6, 3, 1, 3))?;
    // label 0, leaves 0 and 2
    begin(rt, HELD, insert(6, 0, 0, 2))
}

fn low(rt: &(impl Print + Input), label: u64, first: u64, second: u64) -> io::Result<()> {
    let mut list = [99u64; 12];
    let card = cards::started(1, 1, 1, 2);
    calls::begin(rt, card, insert(6, label, first, second), &mut list)?;
    Ok(())
}

fn leaves_of_height_1(rt: &(impl Print + Input)) -> io::Result<()> {
    // height 1, leaves 0 and 1
    low(rt, 1, 0, 1)?;
    // 6, height 1, leaves 0 and 0
    low(rt, 1, 0, 0)?;
    // 6, height 1, leaves 1 and 1
    low(rt, 1, 1, 1)?;
    // 6, height 1, leaves 0 and 2
    low(rt, 1, 0, 2)?;
    // 6, height 1, label 2
    low(rt, 2, 0, 1)
}

fn fields_of_delete(rt: &(impl Print + Input)) -> io::Result<()> {
    // 6, Delete, label N
    begin(rt, HELD, delete(4, 1))?;
    // Delete, label N - 1
    begin(rt, HELD, delete(3, 1))?;
    // 7, stamp t
    begin(rt, HELD, delete(0, 5))?;
    // 7, stamp 2^64 - 1
    begin(rt, HELD, delete(0, TOP))?;
    // 7, t = 0
    begin(rt, FRESH, delete(0, 0))?;
    // stamp t - 1
    begin(rt, HELD, delete(0, 4))
}

fn live_events(rt: &(impl Print + Input)) -> io::Result<()> {
    // 8, FindMin
    min(rt, FRESH)?;
    // 8, ExtractMin
    begin(rt, FRESH, Request::Extract)?;
    // c = 0, Delete
    begin(rt, EMPTIED, delete(1, 4))?;
    // 9, c = N
    begin(rt, FULL, insert(6, 1, 1, 2))
}

// With t and c as given, and R root slots of which slot 0 is real.
fn counted(rt: &(impl Print + Input), r: u64, t: u64, c: u64) -> io::Result<()> {
    let mut list = [99u64; 12];
    let card = cards::counts(named::card(HELD), t, c);
    let sized = cards::sized(card, 2, 1, r, 16);
    calls::begin(rt, sized, insert(6, 1, 1, 2), &mut list)?;
    Ok(())
}

// With a root of 64 slots, of which n are real.
fn large(rt: &(impl Print + Input), n: usize) -> io::Result<()>
    requires { n ≤ 64 }
{
    let mut list = [99u64; 12];
    calls::begin(rt, cards::large(n), insert(6, 1, 1, 64), &mut list)?;
    Ok(())
}

// "Every root slot real" means the R slots. Height 7 asks for more than twelve places.
fn overflow(rt: &(impl Print + Input)) -> io::Result<()> {
    // 10, R = 2, both real
    begin(rt, CROWDED, insert(6, 1, 1, 2))?;
    // 10, R = 1, one real
    counted(rt, 1, 5, 2)?;
    // 10, R = 64, all real
    large(rt, 64)?;
    // 11, R = 64, 63 real
    large(rt, 63)?;
    // R = 64, FindMin
    calls::min(rt, cards::large(64))?;
    // 13, R = 64, a stamp twice
    calls::min(rt, cards::slot(cards::large(64), 63, 63, 0, 0, 0))?;
    Ok(())
}

fn near_the_counts(rt: &(impl Print + Input)) -> io::Result<()> {
    // t = T - 1, Insert
    counted(rt, 2, 15, 2)?;
    // c = N - 1, Insert
    counted(rt, 2, 5, 3)
}

// Insert's list at height 2 has six numbers, the others' four.
fn rooms(rt: &(impl Print + Input)) -> io::Result<()> {
    // 11, Insert, 0 places
    begin_in(rt, HELD, insert(6, 1, 1, 2), &mut [])?;
    // 11, Insert, 5 places
    short(rt, HELD, insert(6, 1, 1, 2))?;
    // Insert, 6 places
    begin_in(rt, HELD, insert(6, 1, 1, 2), &mut [99; 6])?;
    // Insert, 7 places
    begin_in(rt, HELD, insert(6, 1, 1, 2), &mut [99; 7])?;
    // 11, ExtractMin, 3 places
    short(rt, HELD, Request::Extract)?;
    // 11, Delete, 3 places
    short(rt, HELD, delete(2, 0))?;
    // ExtractMin, 4 places
    begin_in(rt, HELD, Request::Extract, &mut [99; 4])?;
    // Delete, 4 places
    begin_in(rt, HELD, delete(2, 0), &mut [99; 4])
}

pub(crate) fn refused(rt: &(impl Print + Input)) -> io::Result<()> {
    busy_and_idle(rt)?;
    spent(rt)?;
    fields_of_insert(rt)?;
    leaves_of_height_1(rt)?;
    fields_of_delete(rt)?;
    live_events(rt)?;
    near_the_counts(rt)?;
    overflow(rt)?;
    rooms(rt)
}
