// The paper's sample played through the second entrance, with the rack, and printed as the desk prints it: document 01, "Input, then
// whole output". The file `stdout` beside src/ is the desk's, so the two entrances are seen to say the same.
//
// Before the first accepted start the card is the one that a refused start hands back. Stands on `lender`, `rack` and `replies`.
#![tactic(auto)]

mod requests;

use answers::Answer;
use card::{Card, Done};
use std::io;

// The longest reply has 107 bytes.
const REPLY_ROOM: usize = 128;

fn say(rt: &impl Print, answer: Answer) -> io::Result<()> {
    let mut out = [0u8; REPLY_ROOM];
    let n = replies::print_reply(Some(answer), &mut out);
    if n <= out.len() {
        rt.write_all(&out[0..n])?;
    }
    Ok(())
}

// The answer is printed, and the card goes on.
pub(crate) fn told(rt: &impl Print, done: Done) -> io::Result<Card> {
    say(rt, done.answer)?;
    Ok(done.card)
}

fn main(rt: HostRuntime) -> io::Result<()> {
    let none = Card::start(0, 0, 0, 0);
    let fresh = told(&rt, lender::start(none.card, 2, 1, 1, 16))?;
    let mut tree = [0u64; 48];
    let _ = rack::fill(&mut tree, 2, 1);
    let full = requests::insertions(&rt, fresh, &mut tree)?;
    let seen = told(&rt, lender::find_min(full))?;
    requests::removals(&rt, seen, &mut tree)?;
    Ok(())
}
