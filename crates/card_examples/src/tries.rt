// A line of the table for a call on a card that is named. Lists have twelve places, room for each list up to height 3 with
// places left over, where no other list is lent.
use crate::calls;
use crate::named::{Like, card};
use request::Request;
use std::io;

pub(crate) fn begin(rt: &(impl Print + Input), like: Like, request: Request) -> io::Result<()> {
    begin_in(rt, like, request, &mut [99; 12])
}

pub(crate) fn begin_in(
    rt: &(impl Print + Input),
    like: Like,
    request: Request,
    list: &mut [u64],
) -> io::Result<()> {
    calls::begin(rt, card(like), request, list)?;
    Ok(())
}

// With a list one place too short at height 2.
pub(crate) fn short(rt: &(impl Print + Input), like: Like, request: Request) -> io::Result<()> {
    match request {
        Request::Insert { .. } => begin_in(rt, like, request, &mut [99; 5]),
        Request::Extract | Request::Delete { .. } => begin_in(rt, like, request, &mut [99; 3]),
    }
}

pub(crate) fn min(rt: &(impl Print + Input), like: Like) -> io::Result<()> {
    calls::min(rt, card(like))?;
    Ok(())
}

pub(crate) fn withdraw(rt: &(impl Print + Input), like: Like) -> io::Result<()> {
    calls::withdraw(rt, card(like))?;
    Ok(())
}
