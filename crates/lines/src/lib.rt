// What a line of the desk says: document 01, "What the desk sees". Stands on `record`, `request` and `fields`.
#![tactic(auto)]

mod says;

use request::Request;
pub use says::read_line;

// What a line says. Leaves and stamps are as they were written: a number out of range is refused by the card.
// Kept: one that cannot be read is a line too, and no Option of one: the desk answers it as it does the others.
#[derive(Clone, Copy)]
pub enum Line {
    Unreadable,
    Size { h: u64, z: u64, r: u64, t: u64 },
    Min,
    Ask(Request),
}

// The most bytes that a line may have, its end not counted.
pub const LINE_MOST: usize = 128;
