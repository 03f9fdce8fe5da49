// The card as words, which is how a driver keeps it: document 01, "The card is a value that goes in with a call and
// comes out of it".
//
// Words 0 to 3 are h, Z, R and T, 4 and 5 are t and c, 6 is the kind of the waiting request and 7 to 11 are its fields; the
// root's least record follows, then the root's 64 places. Stands on `record`, `path`, `request`, `card`, `kinds` and, for the
// root's places, on `gather`.
#![tactic(auto)]

ghost use Rattle.std.specs.Prelude.{◌≡◌};
ghost use Rattle.image.specs.Image.{head_of, image_of};
ghost use Rattle.image.specs.Reading.{card_in, odd_kind};

use card::Card;
use kinds::KIND_DELETE;
use path::{ROOT_PLACES, Sizes};
use record::Record;
use request::Request;

// How many words a card is.
pub const CARD_WORDS: usize = 272;

// The word that holds the kind.
const KIND_AT: usize = 6;

// How many words stand before the root's least record, and how many records they would make.
const HEAD_WORDS: usize = 12;

const HEAD_PLACES: usize = 3;

// The first word of the root's places.
const ROOT_AT: usize = 16;

// Whether the kind is none of the four: no request has another, so no card stands for these words.
pub fn is_odd(words: &[u64; CARD_WORDS]) -> bool
    ensures { result ≡ odd_kind words.now }
{
    words[KIND_AT] > KIND_DELETE
}

// The words before the records.
fn head_words(sizes: Sizes, t: u64, c: u64, waiting: Option<Request>) -> [u64; HEAD_WORDS]
    ensures { result ≡ head_of sizes t c waiting }
{
    let q = kinds::request_words(waiting);
    [
        sizes.h, sizes.z, sizes.r, sizes.t, t, c, q[0], q[1], q[2], q[3], q[4], q[5],
    ]
}

// The card that the words stand for.
pub fn read(words: &[u64; CARD_WORDS]) -> Card
    ensures { result ≡ card_in words.now }
{
    let sizes = Sizes {
        h: words[0],
        z: words[1],
        r: words[2],
        t: words[3],
    };
    let waiting = kinds::waiting_of(
        words[KIND_AT],
        words[7],
        words[8],
        words[9],
        words[10],
        words[11],
    );
    let least = Record::read(words, HEAD_PLACES);
    let places = [Record::DUMMY; ROOT_PLACES];
    let root = gather::save_root(&words[ROOT_AT..], places, ROOT_PLACES);
    Card {
        sizes,
        t: words[4],
        c: words[5],
        root,
        least,
        waiting,
    }
}

// All words of the card.
pub fn write(card: Card, words: &mut [u64; CARD_WORDS])
    ensures { words.new ≡ image_of card }
{
    let head = head_words(card.sizes, card.t, card.c, card.waiting);
    gather::copy(words, 0, &head, 0, HEAD_PLACES);
    card.least.write(words, HEAD_PLACES);
    gather::load_root(&mut words[ROOT_AT..], card.root, ROOT_PLACES);
}
