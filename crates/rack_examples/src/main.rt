// Examples of the rack from document 01: a fill, fetches and stores in a tree of height 2 with one slot, and each refusal,
// printed. The file `stdout` beside src/ is written by hand from the paper, so this is a test of the definitions
// themselves.
#![tactic(auto)]

mod copied;
mod line;
mod refusals;

use std::io;

fn main(rt: HostRuntime) -> io::Result<()> {
    copied::fresh(&rt)?;
    copied::fetched(&rt)?;
    copied::stored(&rt)?;
    refusals::copies(&rt)?;
    refusals::fills(&rt)
}
