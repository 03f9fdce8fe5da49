// Calls one after another on one card, and the lists of begun requests.
use crate::named::{BELOW, HELD};
use crate::requests::{delete, insert};
use crate::{calls, cards, line, named, show, tries};
use card::Card;
use request::Request;
use std::io;

fn standing(rt: &(impl Print + Input), card: Card) -> io::Result<()> {
    line::name(rt)?;
    show::card(rt, card)
}

// Begun with a list of twelve places.
fn begin(rt: &(impl Print + Input), card: Card, request: Request) -> io::Result<Card> {
    let mut list = [99u64; 12];
    calls::begin(rt, card, request, &mut list)
}

// A refused begin leaves the waiting request in place.
fn begun_twice(rt: &(impl Print + Input)) -> io::Result<Card> {
    // begin
    let begun = begin(rt, cards::fresh(), insert(6, 1, 1, 2))?;
    // begun
    standing(rt, begun)?;
    // begin again
    let again = begin(rt, begun, insert(8, 2, 0, 3))?;
    // still
    standing(rt, again)?;
    // FindMin
    calls::min(rt, again)
}

// Once withdrawn, a request may be begun again.
fn withdrawn_twice(rt: &(impl Print + Input), begun: Card) -> io::Result<()> {
    // withdraw
    let dropped = calls::withdraw(rt, begun)?;
    // withdrawn
    standing(rt, dropped)?;
    // withdraw again
    let idle = calls::withdraw(rt, dropped)?;
    // begin a third time
    let third = begin(rt, idle, insert(8, 2, 0, 3))?;
    // begun
    standing(rt, third)
}

// What waits is what begin was given.
fn begun_extract(rt: &(impl Print + Input)) -> io::Result<()> {
    // ExtractMin
    let extracting = begin(rt, named::card(HELD), Request::Extract)?;
    // begun
    standing(rt, extracting)
}

fn begun_delete(rt: &(impl Print + Input)) -> io::Result<()> {
    // Delete
    let deleting = begin(rt, named::card(HELD), delete(2, 3))?;
    // begun
    standing(rt, deleting)
}

// P12 and P11, where the root's least record has label 0; one that is not in the root; and height 3, where the order of an
// Insert's siblings shows.
fn lists(rt: &(impl Print + Input)) -> io::Result<()> {
    // P12
    begin(rt, cards::started(2, 1, 1, 16), insert(6, 3, 1, 2))?;
    // P11
    tries::begin(rt, HELD, Request::Extract)?;
    // the least record has label 3
    tries::begin(rt, BELOW, Request::Extract)?;
    // Delete of label 2
    tries::begin(rt, HELD, delete(2, 0))?;
    let three = cards::started(3, 2, 1, 16);
    // height 3, leaves 1 and 6
    begin(rt, three, insert(6, 3, 1, 6))?;
    // FindMin
    tries::min(rt, HELD)?;
    // FindMin, below the root
    tries::min(rt, BELOW)
}

pub(crate) fn runs(rt: &(impl Print + Input)) -> io::Result<()> {
    withdrawn_twice(rt, begun_twice(rt)?)?;
    begun_extract(rt)?;
    begun_delete(rt)?;
    lists(rt)
}
