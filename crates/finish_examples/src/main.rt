// The paper's sample played through card and rack, and two evictions, printed: document 01, "What the desk sees", P2 to P11. A
// line has the paper's number and the six values of an answer, or a list, or the words of a bucket. The file `stdout` beside src/
// is written by hand from the paper, so this is a test of the definitions themselves.
#![tactic(auto)]

mod eviction;
mod line;
mod rounds;

use card::Card;
use std::io;

fn main(rt: HostRuntime) -> io::Result<()> {
    let done = Card::start(2, 1, 1, 16);
    let mut tree = [0u64; 48];
    let _ = rack::fill(&mut tree, 2, 1);
    let full = rounds::insertions(&rt, done.card, &mut tree)?;
    rounds::least(&rt, full)?;
    let fewer = rounds::extraction(&rt, full, &mut tree)?;
    rounds::removals(&rt, fewer, &mut tree)?;
    eviction::pins(&rt)
}
