// A start where a card stands already: document 01, "Any refusal returns its number with every other field 0; card and lent
// slices are as before".
ghost use Rattle.refusal.specs.Refusal.{first_given};
ghost use Rattle.path.specs.Sizes.{sizes_of};
ghost use Rattle.card.specs.Answers.{Answered};
ghost use Rattle.card.specs.Calls.{start_table, started};

use card::{Card, Done};
use path::Sizes;

// A refused start hands back a card of zeros; here the card that stood is handed back instead.
pub(crate) fn start_over(card: Card, h: u64, z: u64, r: u64, t: u64) -> Done
    ensures { Answered card (first_given (start_table (sizes_of h z r t))) (started (sizes_of h z r t)) result }
{
    let done = Card::start(h, z, r, t);
    let sizes = Sizes { h, z, r, t };
    if sizes.in_range() {
        return done;
    }
    Done { card, ..done }
}
