// Lines cut out of bytes as they come, and answers as bytes: document 01, "What the desk sees". Stands on `decimal`,
// `fields` and `lines`.
#![tactic(auto)]

mod answer;
mod framing;

pub use answer::{print_answer, print_unreadable};
pub use framing::take_line;

// What a call of `take_line` took: the next byte of the chunk to look at, how many bytes of the line are held in the buffer,
// and whether the line has ended.
// Kept: `ended` is no flag of the others: they hold in both cases.
#[derive(Clone, Copy)]
pub struct Taken {
    pub next: usize,
    pub held: usize,
    pub ended: bool,
}
