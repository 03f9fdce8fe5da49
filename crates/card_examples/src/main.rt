// A table of calls on cards, printed: each refusal that a card gives, each clause of BadCard and cards that just pass, pairs
// of refusals of which the paper's order takes the first, and the lists of begun requests. The file `stdout` beside
// src/ is written by hand from document 01, so this is a test of the definitions themselves: a proof cannot show that a
// definition is the paper's. The file `stdin` has the name of each case.
#![tactic(auto)]

mod bad;
mod bad_waiting;
mod calls;
mod cards;
mod forged;
mod good;
mod line;
mod named;
mod order;
mod refused;
mod requests;
mod runs;
mod show;
mod starts;
mod tries;

use std::io;

fn main(rt: HostRuntime) -> io::Result<()> {
    starts::starts(&rt)?;
    bad::bad(&rt)?;
    bad_waiting::bad_waiting(&rt)?;
    good::good(&rt)?;
    refused::refused(&rt)?;
    order::order(&rt)?;
    runs::runs(&rt)
}
