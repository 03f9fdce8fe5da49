// Lines cut out of bytes as they come: document 01, "A line ends at byte 10, which is not counted in its length".
//
// A line may straddle chunks, so what has come of it is held in a buffer, as much of it as there is room for. A line far
// longer than the buffer costs no memory: with room for one byte more than a line may have, what is held says what the
// line says (proofs/FramingLaws.antt).
ghost use Rattle.frames.specs.Framing.{Takes};

use crate::Taken;
use fields::end_of;

pub(crate) const LINE_END: u8 = b'\n';

// Takes bytes of the chunk, from `from` on, up to the end of the line or of the chunk; `held` bytes of the line stand in the buffer.
pub fn take_line(buffer: &mut [u8], held: usize, chunk: &[u8], from: usize) -> Taken
    ensures { Takes buffer.old held chunk.now from result buffer.new }
{
    let rest = chunk.get(from..).unwrap_or(&[]);
    let size = end_of(rest, 0, LINE_END);
    let old = held.min(buffer.len());
    let more = size.min(buffer.len() - old);
    buffer[old..old + more].copy_from_slice(&rest[..more]);
    let ended = size < rest.len();
    Taken {
        next: from + size + usize::from(ended),
        held: old + more,
        ended,
    }
}
