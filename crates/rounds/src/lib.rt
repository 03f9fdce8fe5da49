// One request played on both sides: document 01, "The desk program reads lines and plays both sides". Begin with a list of its
// own, fetch into words of its own, finish, store.
//
// Whatever card and tree are given, a request is played to its end or refused. The first step that refuses decides, and
// then card and tree are as before: the card that was begun is dropped, so the request is not left waiting. Stands on `lists`, `request`,
// `answers`, `card`, `rack`, and on the definitions and laws of `world`.
#![tactic(auto)]

ghost use Rattle.rounds.specs.Round.{Plays};

mod carry;

use answers::Answer;
use card::{Card, Done};
use request::Request;

// The places of a bucket list: the longest, an Insert's at height 16, has 62 numbers.
pub(crate) const LIST_PLACES: usize = 64;

pub fn play(card: Card, request: Request, tree: &mut [u64]) -> Done
    ensures { Plays card request tree.old tree.new result }
{
    let mut list = [0u64; LIST_PLACES];
    let begun = card.begin(request, &mut list);
    let Answer::Listed(n) = begun.answer else {
        return Done { card, ..begun };
    };
    carry::carry(card, begun.card, &list, n, tree)
}
