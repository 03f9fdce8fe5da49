// A table of examples from document 01 about records, paths and bucket lists, printed. The file `stdout` beside src/ is
// written by hand from the paper, so this is a test of the definitions themselves: a proof cannot show that a
// definition is the paper's.
#![tactic(auto)]

mod paths;
mod records;

use std::io;

fn main(rt: HostRuntime) -> io::Result<()> {
    records::records(&rt)?;
    paths::ranges(&rt)?;
    paths::numbers(&rt)?;
    paths::lists(&rt)
}
