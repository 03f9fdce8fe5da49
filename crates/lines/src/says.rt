// What a line says: document 01, "What the desk sees".
ghost use Rattle.std.specs.Prelude.{◌≡◌, cond, ltb, length, drop};
ghost use Rattle.fields.specs.Behind.{behind};
ghost use Rattle.lines.specs.Says.{size_kind, insert_kind, delete_kind, said_of, line_says};

use crate::{LINE_MOST, Line};
use fields::SPACE;
use record::{Leaf, Stamp};
use request::Request;

// Each of these reads what follows its word, which ends at `from`.
// Kept: the array is taken apart by itself: inside the pattern `Some(..)` it is not covered, and a closure for `map_or` that takes it
// apart ensures nothing.
fn size(line: &[u8], from: usize) -> Line
    ensures { result ≡ said_of size_kind (behind (drop from line.now)) }
{
    let Some(found) = fields::numbers::<4>(line, from) else {
        return Line::Unreadable;
    };
    let [h, z, r, t] = found;
    Line::Size { h, z, r, t }
}

fn insert(line: &[u8], from: usize) -> Line
    ensures { result ≡ said_of insert_kind (behind (drop from line.now)) }
{
    let Some(found) = fields::numbers::<5>(line, from) else {
        return Line::Unreadable;
    };
    let [key, value, label, first, second] = found;
    Line::Ask(Request::Insert {
        key,
        value,
        label: Leaf(label),
        first: Leaf(first),
        second: Leaf(second),
    })
}

fn delete(line: &[u8], from: usize) -> Line
    ensures { result ≡ said_of delete_kind (behind (drop from line.now)) }
{
    let Some(found) = fields::numbers::<2>(line, from) else {
        return Line::Unreadable;
    };
    let [label, stamp] = found;
    Line::Ask(Request::Delete {
        label: Leaf(label),
        stamp: Stamp(stamp),
    })
}

// What a word says that stands alone.
fn alone(line: &[u8], from: usize, says: Line) -> Line
    ensures { result ≡ cond (ltb from (length line.now)) Line.Unreadable says }
{
    if from < line.len() {
        return Line::Unreadable;
    }
    says
}

// What the bytes of a line, without its end, say.
pub fn read_line(line: &[u8]) -> Line
    ensures { result ≡ line_says line.now }
{
    if line.len() > LINE_MOST {
        return Line::Unreadable;
    }
    let end = fields::end_of(line, 0, SPACE);
    let word = &line[..end];
    // Kept: `match word` takes such patterns, but its last arm is then reached in 29 ways, by lengths and single bytes, each with a goal
    // of its own.
    if fields::same(word, b"size") {
        return size(line, end);
    }
    if fields::same(word, b"insert") {
        return insert(line, end);
    }
    if fields::same(word, b"min") {
        return alone(line, end, Line::Min);
    }
    if fields::same(word, b"extract") {
        return alone(line, end, Line::Ask(Request::Extract));
    }
    if fields::same(word, b"delete") {
        return delete(line, end);
    }
    Line::Unreadable
}
