// A line of bytes in, the desk's reply in bytes out: document 01, "What the desk sees". Stands on `decimal`, `answers`, `lines`,
// `steps`, `turns`, `frames` and `said`.
#![tactic(auto)]

ghost use Rattle.decimal.specs.Promises.{Laid};
ghost use Rattle.replies.specs.Reply.{bytes_of, printed_of, Prints};

use answers::Answer;
use steps::Desk;

// The desk afterwards, and how many bytes were printed. Contracts alone speak of it: the desk is written where it was lent.
#[derive(Clone, Copy)]
pub struct Printed {
    pub desk: Desk,
    pub bytes: usize,
}

// The reply at the head of the slice, `?` for none, and how many bytes that took; 0 where there is no room, and nothing is written.
// Kept: 0 for none, as of a number that is printed.
pub fn print_reply(reply: Option<Answer>, out: &mut [u8]) -> usize
    ensures { Laid (bytes_of reply) out.old result out.new }
{
    match reply {
        None => frames::print_unreadable(out),
        Some(answer) => said::print_said(answer, out),
    }
}

// What the bytes of a line, without its end, make the desk do and print, and how many bytes were printed.
pub fn answer_line(desk: &mut Desk, line: &[u8], tree: &mut [u64], out: &mut [u8]) -> usize
    ensures { Prints desk.old line.now tree.old tree.new out.old out.new (printed_of desk.new result) }
{
    let said = lines::read_line(line);
    let reply = turns::step(desk, said, tree);
    print_reply(reply, out)
}
