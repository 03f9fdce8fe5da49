// The calls on a rack: document 01, "the rack's side, which fills a fresh lent tree and copies buckets out of it and back".
// They answer nothing but their number, so that an answer has six zeros.
ghost use Rattle.path.specs.Layout.{fresh_tree};
ghost use Rattle.rack.specs.Answers.{fill_refusal, copy_refusal};
ghost use Rattle.copies.specs.Copy.{listed, fetched, stored};
ghost use Rattle.driver.specs.Driven.{Racked};

use told::ANSWER_WORDS;

pub fn nwidarap_fill(answer: &mut [u64; ANSWER_WORDS], h: u64, z: u64, tree: &mut [u64]) -> u64
    ensures { Racked (fill_refusal h z tree.old) (fresh_tree h z) tree.old result answer.new tree.new }
{
    let said = rack::fill(tree, h, z);
    told::tell(said, answer)
}

pub fn nwidarap_fetch(
    answer: &mut [u64; ANSWER_WORDS],
    h: u64,
    z: u64,
    whole: usize,
    least: usize,
    list: &[u64],
    tree: &[u64],
    words: &mut [u64],
) -> u64
    ensures { Racked (copy_refusal h z tree.now list.now whole least words.old) (fetched z tree.now (listed list.now whole least) words.old) words.old result answer.new words.new }
{
    let said = rack::fetch(h, z, tree, list, whole, least, words);
    told::tell(said, answer)
}

pub fn nwidarap_store(
    answer: &mut [u64; ANSWER_WORDS],
    h: u64,
    z: u64,
    whole: usize,
    least: usize,
    list: &[u64],
    words: &[u64],
    tree: &mut [u64],
) -> u64
    ensures { Racked (copy_refusal h z tree.old list.now whole least words.now) (stored z (listed list.now whole least).whole words.now tree.old) tree.old result answer.new tree.new }
{
    let said = rack::store(h, z, tree, list, whole, least, words);
    told::tell(said, answer)
}
