// Answers and cards as parts of a line.
use answers::Answer;
use card::Card;
use record::Record;
use request::Request;
use std::io;

// What a call answered: the paper's number, then its values; the last of FindMin's is the words moved. No call here is a
// finish, so the others have none.
pub(crate) fn answer(rt: &impl Print, given: Answer) -> io::Result<()> {
    match given {
        Answer::Listed(counts) => print!(rt; " 0 {} {}", counts.whole, counts.least),
        Answer::Least { event, .. } => record(rt, " 0", event, " 0"),
        _ => print!(rt; " {}", answers::number_of(given)),
    }
}

// A record between two texts.
fn record(rt: &impl Print, before: &str, r: Record, after: &str) -> io::Result<()> {
    print!(rt;
        "{before} {} {} {} {}{after}",
        r.key, r.value, r.label.0, r.stamp.0
    )
}

// The kind's name and its numbers, and the line's end.
fn waiting(rt: &impl Print, held: Option<Request>) -> io::Result<()> {
    match held {
        None => println!(rt; ", none waits"),
        Some(
            Request::Insert {
                key,
                value,
                label,
                first,
                second,
            },
        ) => {
            println!(rt;
                ", Insert waits {key} {value} {} {} {}",
                label.0, first.0, second.0
            )
        }
        Some(Request::Extract) => println!(rt; ", ExtractMin waits"),
        Some(Request::Delete { label, stamp }) => {
            println!(rt; ", Delete waits {} {}", label.0, stamp.0)
        }
    }
}

// A card, to the line's end: of the root's places the first and the last.
pub(crate) fn card(rt: &impl Print, held: Card) -> io::Result<()> {
    let s = held.sizes;
    print!(rt;
        " sizes {} {} {} {}, t {}, c {}",
        s.h, s.z, s.r, s.t, held.t, held.c
    )?;
    record(rt, ", first", held.root[0], "")?;
    record(rt, ", last", held.root[63], "")?;
    record(rt, ", least", held.least, "")?;
    waiting(rt, held.waiting)
}
