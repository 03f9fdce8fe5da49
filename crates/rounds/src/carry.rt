// A request that is begun, carried to its end: document 01, "A request, step by step". `card` is the card before its begin.
ghost use Rattle.std.specs.Prelude.{◌≡◌};
ghost use Rattle.world.specs.World.{holding_list};
ghost use Rattle.card.specs.Answers.{refused};
ghost use Rattle.rounds.specs.Round.{Carries};

use answers::Answer;
use card::{Card, Done};
use lists::Listed;
use path::Sizes;

// The most words that are fetched: 32 whole buckets of 24 words, and 30 least records.
const WORDS_MOST: usize = 888;

// The card as it came, and this number alone.
fn refuse(card: Card, number: u64) -> Done
    ensures { result ≡ refused card number }
{
    Done {
        card,
        answer: Answer::Refused(number),
    }
}

// Fetched, finished and stored.
pub(crate) fn carry(card: Card, begun: Card, list: &[u64], n: Listed, tree: &mut [u64]) -> Done
    ensures { Carries card 0 (holding_list begun tree.old list.now n) tree.new result }
{
    let mut words = [0u64; WORDS_MOST];
    let Sizes { h, z, .. } = begun.sizes;
    let fetched = rack::fetch(h, z, tree, list, n.whole, n.least, &mut words);
    if let Err(reason) = fetched {
        return refuse(card, reason.number());
    }
    let done = begun.finish(&mut words);
    if let Answer::Refused(number) = done.answer {
        return refuse(card, number);
    }
    // By the list that fetch took a store is not refused.
    let _ = rack::store(h, z, tree, list, n.whole, n.least, &words);
    done
}
