// A line of an answer, in bytes: document 01, "What the desk sees".
ghost use Rattle.std.specs.Prelude.{◌≡◌, cond, leb, length};
ghost use Rattle.decimal.specs.Promises.{Laid};
ghost use Rattle.frames.specs.Answer.{answer_line, unreadable_line};

use crate::framing::LINE_END;
use fields::SPACE;

// Whether the line of these numbers has at most `room` bytes. Their sum may fit no word, so that the room is counted down.
fn fits(numbers: &[u64], room: usize) -> bool
    ensures { result ≡ leb (length (answer_line numbers.now)) room }
{
    let mut left = room;
    for &n in numbers {
        let width = decimal::width(n);
        if left <= width {
            return false;
        }
        left -= width + 1;
    }
    true
}

fn mark(more: bool) -> u8
    ensures { result ≡ cond more 32 10 }
{
    if more { SPACE } else { LINE_END }
}

// The line of these numbers at the head of the slice, and how many bytes that took; 0 where there is no room, and nothing is
// written.
// Kept: 0 for none, as of a number that is printed.
pub fn print_answer(numbers: &[u64], out: &mut [u8]) -> usize
    ensures { Laid (answer_line numbers.now) out.old result out.new }
{
    if !fits(numbers, out.len()) {
        return 0;
    }
    let mut at = 0;
    for (i, &n) in numbers.iter().enumerate() {
        at += decimal::print(n, &mut out[at..]);
        out[at] = mark(i + 1 < numbers.len());
        at += 1;
    }
    at
}

// The same for a line that is not understood.
// Kept: 0 for none, as of a number that is printed.
pub fn print_unreadable(out: &mut [u8]) -> usize
    ensures { Laid unreadable_line out.old result out.new }
{
    if out.len() < 2 {
        return 0;
    }
    out[..2].copy_from_slice(b"?\n");
    2
}
