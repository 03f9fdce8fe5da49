// The card: document 01, "The card holds sizes, the count t of finished requests, the count c of live events, the root's
// slots, the root's least record and the waiting request, if any."
//
// A card is a value that goes in with a call and comes out of it. Every call answers, whatever numbers the card holds.
// Stands on `record`, `path`, `parts`, `lists`, `refusal`, `request`, `listing`, `answers`, `checks`, `settle`, `finishes`.
#![tactic(auto)]

mod calls;
mod finish;

use answers::Answer;
use path::{ROOT_PLACES, Sizes};
use record::Record;
use request::Request;

#[derive(Clone, Copy)]
pub struct Card {
    pub sizes: Sizes,
    pub t: u64,
    pub c: u64,
    pub root: [Record; ROOT_PLACES],
    pub least: Record,
    pub waiting: Option<Request>,
}

// What a call hands back.
#[derive(Clone, Copy)]
pub struct Done {
    pub card: Card,
    pub answer: Answer,
}
