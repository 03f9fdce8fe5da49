// A waiting request as six words, its kind and five fields: document 01, "the waiting request, if any".
//
// Fields that a kind does not use are ignored coming in and 0 going out. Stands on `record` and `request`.
#![tactic(auto)]

ghost use Rattle.std.specs.Prelude.{◌≡◌};
ghost use Rattle.kinds.specs.Kinds.{request_words, waiting_of};

use record::{Leaf, Stamp};
use request::Request;

// The kinds of a waiting request. A card is never read with another: whoever lends one is told that it is bad.
// Kept: numbers, and no enum: they are words of the card as a driver keeps it.
pub const KIND_NOTHING: u64 = 0;

pub const KIND_INSERT: u64 = 1;

pub const KIND_EXTRACT: u64 = 2;

pub const KIND_DELETE: u64 = 3;

// How many words a request is: its kind and five fields.
const REQUEST_WORDS: usize = 6;

// The request of a kind and five fields; of a kind above 3 it makes none.
#[tactic(auto, unfolding(crate::specs::Kinds::waiting_of))]
pub fn waiting_of(kind: u64, a: u64, b: u64, c: u64, d: u64, e: u64) -> Option<Request>
    ensures { result ≡ waiting_of kind a b c d e }
{
    match kind {
        KIND_INSERT => Some(Request::Insert {
            key: a,
            value: b,
            label: Leaf(c),
            first: Leaf(d),
            second: Leaf(e),
        }),
        KIND_EXTRACT => Some(Request::Extract),
        KIND_DELETE => Some(Request::Delete {
            label: Leaf(a),
            stamp: Stamp(b),
        }),
        _ => None,
    }
}

// Its kind and its five fields, 0 where the kind has fewer.
#[tactic(auto, unfolding(crate::specs::Kinds::request_words))]
pub fn request_words(waiting: Option<Request>) -> [u64; REQUEST_WORDS]
    ensures { result ≡ request_words waiting }
{
    match waiting {
        None => [KIND_NOTHING, 0, 0, 0, 0, 0],
        Some(
            Request::Insert {
                key,
                value,
                label,
                first,
                second,
            },
        ) => { [KIND_INSERT, key, value, label.0, first.0, second.0] }
        Some(Request::Extract) => [KIND_EXTRACT, 0, 0, 0, 0, 0],
        Some(Request::Delete { label, stamp }) => [KIND_DELETE, label.0, stamp.0, 0, 0, 0],
    }
}
