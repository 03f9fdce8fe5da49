// Bytes as they come: document 01, "The desk program reads lines and plays both sides".
//
// A chunk may end many lines, and what they print may be longer than the room that is lent. So bytes are taken while the room
// holds one more reply, whatever it is; the caller hands in the rest of the chunk again, with room.
ghost use Rattle.sitting.specs.Sitting.{Feeds};

use crate::{Fed, LINE_HELD, Sitting};

// Takes the bytes of a chunk and answers the lines that end in them, as far as there is room to print; what has come of the next
// line is held.
pub fn feed(sitting: Sitting, tree: &mut [u64], chunk: &[u8], out: &mut [u8]) -> Fed
    ensures { Feeds sitting tree.old tree.new chunk.now out.old result out.new }
{
    let Sitting {
        mut desk,
        mut line,
        held,
    } = sitting;
    let mut held = held.min(LINE_HELD);
    let mut taken = 0;
    let mut written = 0;
    while output::goes_on(taken, chunk.len(), out.len() - written) {
        let got = frames::take_line(&mut line, held, chunk, taken);
        taken = got.next;
        held = got.held;
        if got.ended {
            let bytes = replies::answer_line(&mut desk, &line[..held], tree, &mut out[written..]);
            written += bytes;
            held = 0;
        }
    }
    output::clear(&mut line, held);
    Fed {
        sitting: Sitting { desk, line, held },
        taken,
        written,
    }
}
