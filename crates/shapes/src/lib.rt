// Functions to which a card is lent: one law for each shape of such a function, by how many plain parameters it has and
// whether a slice is lent to it. Document 01, "one thin second entrance keeps the card where the driver lent it".
//
// A law is a function here: whatever the call by value that it is given asks and promises, the function asks of the card that stands
// behind the reference, and promises of that card and of the one that stands there afterwards. Stands on `answers` and `card`.
#![tactic(auto)]

ghost use Rattle.shapes.specs.Lending.{TakesWords, GivesWords};

use answers::Answer;
use card::{Card, Done};

// A call on a lent card and nothing else.
pub fn of_card<F: FnOnce(Card) -> Done>(card: &mut Card, call: F) -> Answer
    requires { F.pre call card.old }
    ensures { F.post call card.old (record { card = card.new; answer = result }) }
{
    let done = call(*card);
    *card = done.card;
    done.answer
}

// With four plain parameters.
// Kept: by `of_card` and a closure that holds the four it would ask that each of them may be dropped.
pub fn of_four<A, B, C, D, F: FnOnce(Card, A, B, C, D) -> Done>(
    card: &mut Card,
    a: A,
    b: B,
    c: C,
    d: D,
    call: F,
) -> Answer
    requires { F.pre call card.old a b c d }
    ensures { F.post call card.old a b c d (record { card = card.new; answer = result }) }
{
    let done = call(*card, a, b, c, d);
    *card = done.card;
    done.answer
}

// With a lent slice.
// Kept: a closure that held the slice would not say what it leaves there, since a call that is made once leaves no state.
pub fn of_card_and_slice<F: FnOnce(Card, &mut [u64]) -> Done>(
    card: &mut Card,
    words: &mut [u64],
    call: F,
) -> Answer
    requires { TakesWords (F.pre call card.old) words.old }
    ensures { GivesWords (F.post call card.old) words.old (record { card = card.new; answer = result }) words.new }
{
    let done = call(*card, words);
    *card = done.card;
    done.answer
}

// With one plain parameter and a lent slice.
// Kept: by the law above and a closure that holds the parameter it would ask that this may be dropped.
pub fn of_one_and_slice<A, F: FnOnce(Card, A, &mut [u64]) -> Done>(
    card: &mut Card,
    a: A,
    words: &mut [u64],
    call: F,
) -> Answer
    requires { TakesWords (F.pre call card.old a) words.old }
    ensures { GivesWords (F.post call card.old a) words.old (record { card = card.new; answer = result }) words.new }
{
    let done = call(*card, a, words);
    *card = done.card;
    done.answer
}
