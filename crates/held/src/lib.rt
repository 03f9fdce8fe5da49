// The card that a call goes on with: the one that the lent words stand for, or one that every call refuses. Document 01, "BadCard:
// sizes out of range".
//
// No card has a kind above 3. Such words are taken as a card of height 0, so that the card's own call finds it bad, and what is
// lent to the call stays as it was. Stands on `path`, `refusal`, `request`, `card` and `image`.
#![tactic(auto)]

ghost use Rattle.std.specs.Prelude.{◌≡◌};
ghost use Rattle.held.specs.Held.{held_in};

use card::Card;
use image::CARD_WORDS;
use path::Sizes;

#[tactic(auto, unfolding(crate::specs::Held::held_in))]
pub fn card_of(words: &[u64; CARD_WORDS]) -> Card
    ensures { result ≡ held_in words.now }
{
    if image::is_odd(words) {
        return Card::fresh(Sizes {
            h: 0,
            z: 0,
            r: 0,
            t: 0,
        });
    }
    image::read(words)
}
