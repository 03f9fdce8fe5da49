// What a driver is told: document 01, "Any refusal returns its number with every other field 0; card and lent slices are as
// before".
//
// Kept: the number of a refusal, and no `Reason`: it is what the entrance for C returns.
//
// A call returns its number and leaves six words of answer where the driver lent them, all 0 for a refusal. The card's words are
// written unless the call is refused. Stands on `refusal`, `answers`, `card` and `image`.
#![tactic(auto)]

ghost use Rattle.answers.specs.Answers.{number_of, values_of};
ghost use Rattle.refusal.specs.Reason.{refusal_in};
ghost use Rattle.told.specs.Told.{Said, Settled, Zeroed};

use answers::Answer;
use card::Done;
use image::CARD_WORDS;
use refusal::Reason;

// How many words an answer is.
pub const ANSWER_WORDS: usize = 6;

// For crates above: what a call answered, its number and its six values.
pub fn say(said: Answer, answer: &mut [u64; ANSWER_WORDS]) -> u64
    ensures { Said (number_of said) (values_of said) result answer.new }
{
    *answer = answers::values_of(said);
    answers::number_of(said)
}

// For crates above: a card's call, its number and its six values, and unless that is a refusal the card's words.
pub fn settle(done: Done, card: &mut [u64; CARD_WORDS], answer: &mut [u64; ANSWER_WORDS]) -> u64
    ensures { Settled done card.old result card.new answer.new }
{
    let number = say(done.answer, answer);
    if number == 0 {
        image::write(done.card, card);
    }
    number
}

// For crates above: a rack's call, its number and an answer of zeros.
pub fn tell(said: Result<(), Reason>, answer: &mut [u64; ANSWER_WORDS]) -> u64
    ensures { Zeroed (refusal_in said) result answer.new }
{
    *answer = [0; ANSWER_WORDS];
    refusal::number_of(said)
}
