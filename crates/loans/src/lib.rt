// Functions that hold a card and lend it for one call: one law for each shape of the call, as in `shapes`.
//
// A law is a function here: whatever the call on a lent card that it is given asks and promises, the function asks of the card that it
// holds, and promises of that card and of the one that it hands back. Stands on `answers`, `card` and `shapes`.
#![tactic(auto)]

ghost use Rattle.shapes.specs.Lending.{TakesWords};
ghost use Rattle.loans.specs.Holding.{TakesCard, LeavesCard, LeavesBoth};

use answers::Answer;
use card::{Card, Done};

// A card that is lent for one call and nothing else.
pub fn with_card<F: FnOnce(&mut Card) -> Answer>(mut card: Card, call: F) -> Done
    requires { TakesCard (F.pre call) card }
    ensures { LeavesCard (F.post call) card result }
{
    let answer = call(&mut card);
    Done { card, answer }
}

// With four plain parameters.
// Kept: by `with_card` and a closure that holds the four it would ask that each of them may be dropped.
pub fn with_four<A, B, C, D, F: FnOnce(&mut Card, A, B, C, D) -> Answer>(
    mut card: Card,
    a: A,
    b: B,
    c: C,
    d: D,
    call: F,
) -> Done
    requires { TakesCard (λ k. F.pre call k a b c d) card }
    ensures { LeavesCard (λ k r k'. F.post call k a b c d r k') card result }
{
    let answer = call(&mut card, a, b, c, d);
    Done { card, answer }
}

// With a lent slice.
// Kept: a closure that held the slice would not say what it leaves there, since a call that is made once leaves no state.
pub fn with_slice<F: FnOnce(&mut Card, &mut [u64]) -> Answer>(
    mut card: Card,
    words: &mut [u64],
    call: F,
) -> Done
    requires { TakesCard (λ k. TakesWords (F.pre call k) words.old) card }
    ensures { LeavesBoth (F.post call) card words.old result words.new }
{
    let answer = call(&mut card, words);
    Done { card, answer }
}

// With one plain parameter and a lent slice.
// Kept: by the law above and a closure that holds the parameter it would ask that this may be dropped.
pub fn with_one_and_slice<A, F: FnOnce(&mut Card, A, &mut [u64]) -> Answer>(
    mut card: Card,
    a: A,
    words: &mut [u64],
    call: F,
) -> Done
    requires { TakesCard (λ k. TakesWords (F.pre call k a) words.old) card }
    ensures { LeavesBoth (λ k w. F.post call k a w) card words.old result words.new }
{
    let answer = call(&mut card, a, words);
    Done { card, answer }
}

#[cfg(test)]
mod tests {
    use answers::Answer;
    use card::Card;
    use request::Request;

    // Each law takes a call of the card, by value or on a lent one, and answers as the call does: on an empty list no event is least
    // (8) or can be taken out, nothing waits to be finished or withdrawn (3), and a height of 0 is no size (1).
    #[test]
    fn each_law_takes_a_call(rt: HostRuntime) {
        let mut words = [0u64; 64];
        let mut card = Card::start(0, 0, 0, 0).card;
        let started = shapes::of_four(
            &mut card,
            2,
            1,
            1,
            16,
            |_k: Card, h: u64, z: u64, r: u64, t: u64| Card::start(h, z, r, t),
        );
        assert!(rt; matches!(started, Answer::Started), "a start");
        let least = shapes::of_card(&mut card, Card::find_min);
        assert!(rt; matches!(least, Answer::Refused(8)), "a look at the least");
        let finished = shapes::of_card_and_slice(&mut card, &mut words, Card::finish);
        assert!(rt; matches!(finished, Answer::Refused(3)), "a finish");
        let begun = shapes::of_one_and_slice(&mut card, Request::Extract, &mut words, Card::begin);
        assert!(rt; matches!(begun, Answer::Refused(8)), "a begin");
        let withdrawn = super::with_card(card, |k: &mut Card| shapes::of_card(k, Card::withdraw));
        assert!(rt;
            matches!(withdrawn.answer, Answer::Refused(3)),
            "a withdrawal"
        );
        let again = super::with_four(
            card,
            0,
            1,
            1,
            16,
            |_k: &mut Card, h: u64, z: u64, r: u64, t: u64| Card::start(h, z, r, t).answer,
        );
        assert!(rt;
            matches!(again.answer, Answer::Refused(1)),
            "a start of height 0"
        );
        let ended = super::with_slice(
            card,
            &mut words,
            |k: &mut Card, w: &mut [u64]| k.finish(w).answer,
        );
        assert!(rt;
            matches!(ended.answer, Answer::Refused(3)),
            "a finish of a card that is held"
        );
        let asked = super::with_one_and_slice(
            card,
            Request::Extract,
            &mut words,
            |k: &mut Card, r: Request, w: &mut [u64]| k.begin(r, w).answer,
        );
        assert!(rt;
            matches!(asked.answer, Answer::Refused(8)),
            "a begin of a card that is held"
        );
        assert!(rt; asked.card.t == 0, "the card that was held");
    }
}
