// The entrance for drivers in C: the calls of `driver`, exported under the same names. A library exports nothing to C, so a static library
// over it does: each export has the clause of the call that it makes, word for word. `tools/archive` builds the archive; the header is
// crates/driver/nwidarap.h. Stands on `driver`.
//
// Kept: numbers, lengths and pointers as parameters, and a number as the answer: the interface of C has no other.
#![tactic(auto)]

ghost use Rattle.path.specs.Sizes.{sizes_of};
ghost use Rattle.path.specs.Layout.{fresh_tree};
ghost use Rattle.refusal.specs.Refusal.{first_given};
ghost use Rattle.card.specs.Calls.{start_table, started, withdraw_table, withdrawn};
ghost use Rattle.image.specs.Reading.{card_in};
ghost use Rattle.copies.specs.Copy.{listed, fetched, stored};
ghost use Rattle.rack.specs.Answers.{fill_refusal, copy_refusal};
ghost use Rattle.told.specs.Told.{Called};
ghost use Rattle.driver.specs.Driven.{on_card, BeginsAt, FindsMin, FinishesAt, Racked};

use image::CARD_WORDS;
use request::Request;
use told::ANSWER_WORDS;

#[unsafe(no_mangle)]
pub extern "C" fn nwidarap_start(
    card: &mut [u64; CARD_WORDS],
    answer: &mut [u64; ANSWER_WORDS],
    h: u64,
    z: u64,
    r: u64,
    t: u64,
) -> u64
    ensures { Called (first_given (start_table (sizes_of h z r t))) (started (sizes_of h z r t)) card.old result card.new answer.new }
{
    driver::nwidarap_start(card, answer, h, z, r, t)
}

#[unsafe(no_mangle)]
pub extern "C" fn nwidarap_insert(
    card: &mut [u64; CARD_WORDS],
    answer: &mut [u64; ANSWER_WORDS],
    key: u64,
    value: u64,
    label: u64,
    first: u64,
    second: u64,
    list: &mut [u64],
) -> u64
    ensures { BeginsAt (Request.Insert key value (record { 0 = label }) (record { 0 = first }) (record { 0 = second })) card.old list.old result card.new answer.new list.new }
{
    driver::nwidarap_insert(card, answer, key, value, label, first, second, list)
}

#[unsafe(no_mangle)]
pub extern "C" fn nwidarap_extract(
    card: &mut [u64; CARD_WORDS],
    answer: &mut [u64; ANSWER_WORDS],
    list: &mut [u64],
) -> u64
    ensures { BeginsAt Request.Extract card.old list.old result card.new answer.new list.new }
{
    driver::nwidarap_extract(card, answer, list)
}

#[unsafe(no_mangle)]
pub extern "C" fn nwidarap_delete(
    card: &mut [u64; CARD_WORDS],
    answer: &mut [u64; ANSWER_WORDS],
    label: u64,
    stamp: u64,
    list: &mut [u64],
) -> u64
    ensures { BeginsAt (Request.Delete (record { 0 = label }) (record { 0 = stamp })) card.old list.old result card.new answer.new list.new }
{
    driver::nwidarap_delete(card, answer, label, stamp, list)
}

#[unsafe(no_mangle)]
pub extern "C" fn nwidarap_find_min(
    card: &[u64; CARD_WORDS],
    answer: &mut [u64; ANSWER_WORDS],
) -> u64
    ensures { FindsMin card.now result answer.new }
{
    driver::nwidarap_find_min(card, answer)
}

#[unsafe(no_mangle)]
pub extern "C" fn nwidarap_withdraw(
    card: &mut [u64; CARD_WORDS],
    answer: &mut [u64; ANSWER_WORDS],
) -> u64
    ensures { Called (on_card card.old withdraw_table) (withdrawn (card_in card.old)) card.old result card.new answer.new }
{
    driver::nwidarap_withdraw(card, answer)
}

#[unsafe(no_mangle)]
pub extern "C" fn nwidarap_finish(
    card: &mut [u64; CARD_WORDS],
    answer: &mut [u64; ANSWER_WORDS],
    words: &mut [u64],
) -> u64
    ensures { FinishesAt card.old words.old result card.new answer.new words.new }
{
    driver::nwidarap_finish(card, answer, words)
}

#[unsafe(no_mangle)]
pub extern "C" fn nwidarap_fill(
    answer: &mut [u64; ANSWER_WORDS],
    h: u64,
    z: u64,
    tree: &mut [u64],
) -> u64
    ensures { Racked (fill_refusal h z tree.old) (fresh_tree h z) tree.old result answer.new tree.new }
{
    driver::nwidarap_fill(answer, h, z, tree)
}

#[unsafe(no_mangle)]
pub extern "C" fn nwidarap_fetch(
    answer: &mut [u64; ANSWER_WORDS],
    h: u64,
    z: u64,
    whole: usize,
    least: usize,
    list: &[u64],
    tree: &[u64],
    words: &mut [u64],
) -> u64
    ensures { Racked (copy_refusal h z tree.now list.now whole least words.old) (fetched z tree.now (listed list.now whole least) words.old) words.old result answer.new words.new }
{
    driver::nwidarap_fetch(answer, h, z, whole, least, list, tree, words)
}

#[unsafe(no_mangle)]
pub extern "C" fn nwidarap_store(
    answer: &mut [u64; ANSWER_WORDS],
    h: u64,
    z: u64,
    whole: usize,
    least: usize,
    list: &[u64],
    words: &[u64],
    tree: &mut [u64],
) -> u64
    ensures { Racked (copy_refusal h z tree.old list.now whole least words.now) (stored z (listed list.now whole least).whole words.now tree.old) tree.old result answer.new tree.new }
{
    driver::nwidarap_store(answer, h, z, whole, least, list, words, tree)
}
