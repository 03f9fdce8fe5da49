// The desk between two lines, what a line leaves of it, and the three ways a line ends: document 01, "What the desk sees". For crates above.
// Stands on `path`, `answers`, `card`, `copies`, `lines` and `rounds`.
#![tactic(auto)]

mod ends;
mod room;

use answers::Answer;
use card::Card;
pub use ends::{kept_by, told_by, unread_by};
pub use room::{tree_words, used};

// The desk between two lines: its card, or none until a `size` is accepted.
pub type Desk = Option<Card>;

// What a line comes to: the desk behind it, and the answer that is printed; none where the line is not understood, which prints `?`. Contracts alone
// speak of it: a function writes the desk where it was lent, and hands back the answer.
#[derive(Clone, Copy)]
pub struct Turn {
    pub desk: Desk,
    pub reply: Option<Answer>,
}
