// What an input makes the desk print: lines answered one after another, how far a chunk of bytes is taken, and a chunk heard piece by
// piece. Document 01, "Input, then whole output".
//
// Theorems, and two small functions for crates above. Stands on the definitions and laws of `lines`, `frames`, `steps` and `replies`.
#![tactic(auto)]

ghost use Rattle.std.specs.Prelude.{◌≡◌, ◌&&◌, ◌++◌, ◌-◌, ltb, leb, length, take, replicate};
ghost use Rattle.output.specs.Room.{reply_most};

// The longest reply: 0 and five numbers of 20 digits, with a byte behind each.
const REPLY_MOST: usize = 107;

// Whether one more byte of a chunk is taken.
pub fn goes_on(taken: usize, bytes: usize, room: usize) -> bool
    ensures { result ≡ (ltb taken bytes && leb reply_most room) }
{
    taken < bytes && REPLY_MOST <= room
}

// Zeros from a place on.
pub fn clear(bytes: &mut [u8], from: usize)
    ensures { bytes.new ≡ take from bytes.old ++ replicate (length bytes.old - from) 0 }
{
    if from < bytes.len() {
        bytes[from..].fill(0);
    }
}
