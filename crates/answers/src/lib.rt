// What a call answers: document 01, "A request, step by step", and "Any refusal returns its number with every other field 0".
// Each case has the paper's number and six values; one that does not apply is 0. Stands on `record`, `lists`, `parts`, `request`.
#![tactic(auto)]

ghost use Rattle.std.specs.Prelude.{◌≡◌};
ghost use Rattle.answers.specs.Answers.{number_of, values_of, answer_to};

use lists::Listed;
use parts::Parts;
use record::{Leaf, Record, Stamp};
use request::Request;

#[derive(Clone, Copy, PartialEq, Eq)]
pub enum Answer {
    Started,
    Listed(Listed),
    Least {
        event: Record,
        words: u64,
    },
    Withdrawn,
    Inserted {
        label: Leaf,
        stamp: Stamp,
        words: u64,
    },
    Extracted {
        event: Record,
        words: u64,
    },
    Deleted {
        found: bool,
        words: u64,
    },
    // Kept: the number and no `Reason`: the definitions above this crate speak of the number that a call's table gives.
    Refused(u64),
}

// 0, or the refusal's.
// Kept: the number, as the entrance for C has it.
pub fn number_of(said: Answer) -> u64
    ensures { result ≡ number_of said }
{
    match said {
        Answer::Refused(number) => number,
        _ => 0,
    }
}

// A begin's counts; else key, value, label, stamp, found and the words moved.
pub fn values_of(said: Answer) -> [u64; 6]
    ensures { result ≡ values_of said }
{
    match said {
        Answer::Started | Answer::Withdrawn | Answer::Refused(_) => [0; 6],
        Answer::Listed(counts) => [counts.whole as u64, counts.least as u64, 0, 0, 0, 0],
        Answer::Least { event, words } | Answer::Extracted { event, words } => {
            [
                event.key,
                event.value,
                event.label.0,
                event.stamp.0,
                0,
                words,
            ]
        }
        Answer::Inserted {
            label,
            stamp,
            words,
        } => [0, 0, label.0, stamp.0, 0, words],
        Answer::Deleted { found, words } => [0, 0, 0, 0, u64::from(found), words],
    }
}

// For crates above: what a finish answers to the request that waited on a card of these parts.
pub fn answer_to(parts: Parts, request: Request, found: bool, moved: u64) -> Answer
    ensures { result ≡ answer_to parts request found moved }
{
    match request {
        Request::Insert { label, .. } => Answer::Inserted {
            label,
            stamp: Stamp(parts.t),
            words: moved,
        },
        Request::Extract => Answer::Extracted {
            event: parts.least,
            words: moved,
        },
        Request::Delete { .. } => Answer::Deleted {
            found,
            words: moved,
        },
    }
}
