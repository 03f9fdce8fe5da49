// A sitting at the desk, from the first byte of its input to the last: document 01, "What the desk sees". Bytes come in chunks
// of any lengths, and every byte that is to be printed goes out. Stands on `frames`, `steps`, `replies` and
// `output`.
#![tactic(auto)]

mod ends;
mod feeding;

pub use ends::{close, open};
pub use feeding::feed;
use steps::Desk;

// One byte more than a line may have: what is held then says what the line says.
pub const LINE_HELD: usize = 129;

// The desk between two chunks: `held` bytes of an open line stand at the head of `line`.
// Kept: a buffer with a length beside it. What is held outlives the chunk that it came in, and there is no heap for it.
#[derive(Clone, Copy)]
pub struct Sitting {
    pub desk: Desk,
    pub line: [u8; LINE_HELD],
    pub held: usize,
}

// What a chunk came to: how many of its bytes were taken, and how many were printed.
#[derive(Clone, Copy)]
pub struct Fed {
    pub sitting: Sitting,
    pub taken: usize,
    pub written: usize,
}
