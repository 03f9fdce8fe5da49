// The calls on a card: document 01, "A request, step by step". A kind above 3 is no card's and gives 13, which comes
// first in every order but start's: a card that is bad takes its place, and the card's own call refuses that.
ghost use Rattle.path.specs.Sizes.{sizes_of};
ghost use Rattle.card.specs.Calls.{start_table, started, withdraw_table, withdrawn};
ghost use Rattle.image.specs.Reading.{card_in};
ghost use Rattle.refusal.specs.Refusal.{first_given};
ghost use Rattle.driver.specs.Driven.{on_card, BeginsAt, FindsMin, FinishesAt};
ghost use Rattle.told.specs.Told.{Called};

use card::Card;
use image::CARD_WORDS;
use record::{Leaf, Stamp};
use request::Request;
use told::ANSWER_WORDS;

pub fn nwidarap_start(
    card: &mut [u64; CARD_WORDS],
    answer: &mut [u64; ANSWER_WORDS],
    h: u64,
    z: u64,
    r: u64,
    t: u64,
) -> u64
    ensures { Called (first_given (start_table (sizes_of h z r t))) (started (sizes_of h z r t)) card.old result card.new answer.new }
{
    let done = Card::start(h, z, r, t);
    told::settle(done, card, answer)
}

// A begin, whatever is asked.
fn begin(
    card: &mut [u64; CARD_WORDS],
    answer: &mut [u64; ANSWER_WORDS],
    request: Request,
    list: &mut [u64],
) -> u64
    ensures { BeginsAt request card.old list.old result card.new answer.new list.new }
{
    let taken = held::card_of(card);
    let done = taken.begin(request, list);
    told::settle(done, card, answer)
}

pub fn nwidarap_insert(
    card: &mut [u64; CARD_WORDS],
    answer: &mut [u64; ANSWER_WORDS],
    key: u64,
    value: u64,
    label: u64,
    first: u64,
    second: u64,
    list: &mut [u64],
) -> u64
    ensures { BeginsAt (Request.Insert key value (record { 0 = label }) (record { 0 = first }) (record { 0 = second })) card.old list.old result card.new answer.new list.new }
{
    let request = Request::Insert {
        key,
        value,
        label: Leaf(label),
        first: Leaf(first),
        second: Leaf(second),
    };
    begin(card, answer, request, list)
}

pub fn nwidarap_extract(
    card: &mut [u64; CARD_WORDS],
    answer: &mut [u64; ANSWER_WORDS],
    list: &mut [u64],
) -> u64
    ensures { BeginsAt Request.Extract card.old list.old result card.new answer.new list.new }
{
    let request = Request::Extract;
    begin(card, answer, request, list)
}

pub fn nwidarap_delete(
    card: &mut [u64; CARD_WORDS],
    answer: &mut [u64; ANSWER_WORDS],
    label: u64,
    stamp: u64,
    list: &mut [u64],
) -> u64
    ensures { BeginsAt (Request.Delete (record { 0 = label }) (record { 0 = stamp })) card.old list.old result card.new answer.new list.new }
{
    let request = Request::Delete {
        label: Leaf(label),
        stamp: Stamp(stamp),
    };
    begin(card, answer, request, list)
}

// The card is lent to be read: its words stay, those of fields that its kind does not use, too.
pub fn nwidarap_find_min(card: &[u64; CARD_WORDS], answer: &mut [u64; ANSWER_WORDS]) -> u64
    ensures { FindsMin card.now result answer.new }
{
    let taken = held::card_of(card);
    let done = taken.find_min();
    let said = done.answer;
    told::say(said, answer)
}

pub fn nwidarap_withdraw(card: &mut [u64; CARD_WORDS], answer: &mut [u64; ANSWER_WORDS]) -> u64
    ensures { Called (on_card card.old withdraw_table) (withdrawn (card_in card.old)) card.old result card.new answer.new }
{
    let taken = held::card_of(card);
    let done = taken.withdraw();
    told::settle(done, card, answer)
}

pub fn nwidarap_finish(
    card: &mut [u64; CARD_WORDS],
    answer: &mut [u64; ANSWER_WORDS],
    words: &mut [u64],
) -> u64
    ensures { FinishesAt card.old words.old result card.new answer.new words.new }
{
    let taken = held::card_of(card);
    let done = taken.finish(words);
    told::settle(done, card, answer)
}
