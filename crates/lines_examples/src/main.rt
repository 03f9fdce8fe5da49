// What lines say: reads lines, and prints for each `?`, or the number of its kind and its numbers. The bytes come in chunks of
// seven, so that most lines straddle chunks. The file `stdout` beside src/ is written by hand from document 01, so this is a test
// of the definitions themselves.
#![tactic(auto)]

ghost use Rattle.std.specs.Prelude.{◌≤◌, length, IfOk};

use lines::Line;
use request::Request;
use std::io;
use std::io::Read;

// By the desk's own printing, so that the table tests it too.
fn show(rt: &impl Print, numbers: &[u64]) -> io::Result<()> {
    let mut out = [0u8; 128];
    let n = frames::print_answer(numbers, &mut out);
    rt.write_all(&out[..n])
}

fn ask(rt: &impl Print, request: Request) -> io::Result<()> {
    match request {
        Request::Insert {
            key,
            value,
            label,
            first,
            second,
        } => show(rt, &[2, key, value, label.0, first.0, second.0]),
        Request::Extract => show(rt, &[4]),
        Request::Delete { label, stamp } => show(rt, &[5, label.0, stamp.0]),
    }
}

fn say(rt: &impl Print, line: &[u8]) -> io::Result<()> {
    match lines::read_line(line) {
        Line::Unreadable => rt.write_all(b"?\n"),
        Line::Size { h, z, r, t } => show(rt, &[1, h, z, r, t]),
        Line::Min => show(rt, &[3]),
        Line::Ask(request) => ask(rt, request),
    }
}

// Says the lines that end in the chunk, and answers how much of the next is held.
fn feed(rt: &impl Print, buffer: &mut [u8], before: usize, chunk: &[u8]) -> io::Result<usize>
    requires { before ≤ length buffer.old }
    ensures { IfOk result (λ held. held ≤ length buffer.old) }
{
    let mut held = before;
    let mut from = 0;
    // Kept: `take_line` says where the next byte stands, so nothing here counts.
    while from < chunk.len() {
        let taken = frames::take_line(buffer, held, chunk, from);
        from = taken.next;
        held = taken.held;
        if taken.ended {
            say(rt, &buffer[..held])?;
            held = 0;
        }
    }
    Ok(held)
}

// A proved loop has to end, and nothing says that the input does, so that the turns are counted up to a number that no run
// uses up.
fn main(rt: HostRuntime) -> io::Result<()> {
    let mut input = rt.stdin();
    let mut buffer = [0u8; 129];
    let mut chunk = [0u8; 7];
    let mut held = 0;
    for _ in 0..u64::MAX {
        let n = input.read(&mut chunk)?;
        if n == 0 {
            break;
        }
        held = feed(&rt, &mut buffer, held, &chunk[..n])?;
    }
    if held > 0 {
        say(&rt, &buffer[..held])?;
    }
    Ok(())
}
