// A Rattle driver that keeps its card and lends it: each function holds the card in a local, lends it to the second entrance for one
// call, and hands back what stands there afterwards.
//
// Each promises what the call by value promises, word for word: the second entrance equals the first. A caller needs no reference.
// Each is a law of `loans`, told of a call of `lent`. Stands on `lent` and `loans`.
#![tactic(auto)]

ghost use Rattle.refusal.specs.Refusal.{first_given};
ghost use Rattle.path.specs.Sizes.{sizes_of};
ghost use Rattle.card.specs.Answers.{Answered};
ghost use Rattle.card.specs.Calls.{start_table, started, Begins, min_table, found_min, withdraw_table, withdrawn};
ghost use Rattle.card.specs.Finish.{Finishes};

use card::{Card, Done};
use request::Request;

// A refused start leaves the card that stood.
pub fn start(card: Card, h: u64, z: u64, r: u64, t: u64) -> Done
    ensures { Answered card (first_given (start_table (sizes_of h z r t))) (started (sizes_of h z r t)) result }
{
    loans::with_four(card, h, z, r, t, lent::start)
}

pub fn begin(card: Card, request: Request, list: &mut [u64]) -> Done
    ensures { Begins card request list.old list.new result }
{
    loans::with_one_and_slice(card, request, list, lent::begin)
}

pub fn find_min(card: Card) -> Done
    ensures { Answered card (first_given (min_table card)) (found_min card) result }
{
    loans::with_card(card, lent::find_min)
}

pub fn withdraw(card: Card) -> Done
    ensures { Answered card (first_given (withdraw_table card)) (withdrawn card) result }
{
    loans::with_card(card, lent::withdraw)
}

pub fn finish(card: Card, words: &mut [u64]) -> Done
    ensures { Finishes card words.old words.new result }
{
    loans::with_slice(card, words, lent::finish)
}
