// The second entrance: document 01, "one thin second entrance keeps the card where the driver lent it, and equals the first."
//
// Each function takes `&mut Card` and the numbers and slices of a call by value, makes that call and stores its card. Its promise is
// that call's, at the card that stood behind the reference and the card that stands there afterwards: each is a law of `shapes`, told
// of that call. Stands on `card` and `shapes`.
#![tactic(auto)]

ghost use Rattle.refusal.specs.Refusal.{first_given};
ghost use Rattle.path.specs.Sizes.{sizes_of};
ghost use Rattle.card.specs.Answers.{Answered};
ghost use Rattle.card.specs.Calls.{start_table, started, Begins, min_table, found_min, withdraw_table, withdrawn};
ghost use Rattle.card.specs.Finish.{Finishes};
ghost use Rattle.lent.specs.Handed.{handed};

mod afresh;

use afresh::start_over;
use answers::Answer;
use card::Card;
use request::Request;

pub fn start(card: &mut Card, h: u64, z: u64, r: u64, t: u64) -> Answer
    ensures { Answered card.old (first_given (start_table (sizes_of h z r t))) (started (sizes_of h z r t)) (handed card.new result) }
{
    shapes::of_four(card, h, z, r, t, start_over)
}

pub fn begin(card: &mut Card, request: Request, list: &mut [u64]) -> Answer
    ensures { Begins card.old request list.old list.new (handed card.new result) }
{
    shapes::of_one_and_slice(card, request, list, Card::begin)
}

pub fn find_min(card: &mut Card) -> Answer
    ensures { Answered card.old (first_given (min_table card.old)) (found_min card.old) (handed card.new result) }
{
    shapes::of_card(card, Card::find_min)
}

pub fn withdraw(card: &mut Card) -> Answer
    ensures { Answered card.old (first_given (withdraw_table card.old)) (withdrawn card.old) (handed card.new result) }
{
    shapes::of_card(card, Card::withdraw)
}

pub fn finish(card: &mut Card, words: &mut [u64]) -> Answer
    ensures { Finishes card.old words.old words.new (handed card.new result) }
{
    shapes::of_card_and_slice(card, words, Card::finish)
}
