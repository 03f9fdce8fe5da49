// The rack: document 01, "the rack's side, which fills a fresh lent tree and copies buckets out of it and back", with the
// refusals 1, 11 and 14 of "Refusal numbers".
//
// Every call tests all that it was given before it writes the first word. A bucket comes in as a plain number, as the
// paper's rack is given one: until it has been tested it may be no bucket at all. Stands on `record`, `path`, `refusal` and
// `copies`.
#![tactic(auto)]

ghost use Rattle.rack.specs.Promises.{Fills, Fetches, Stores};

use refusal::Reason;

mod refusing;

// A fresh tree: all dummies.
pub fn fill(tree: &mut [u64], h: u64, z: u64) -> Result<(), Reason>
    ensures { Fills h z tree.old result tree.new }
{
    refusing::of_fill(h, z, tree.len())?;
    copies::fill_dummies(tree);
    Ok(())
}

// The first `whole` numbers' buckets, then the next `least` numbers' least records, from word 0 on.
pub fn fetch(
    h: u64,
    z: u64,
    tree: &[u64],
    list: &[u64],
    whole: usize,
    least: usize,
    words: &mut [u64],
) -> Result<(), Reason>
    ensures { Fetches h z tree.now list.now whole least words.old result words.new }
{
    refusing::of_copy(h, z, tree.len(), list, whole, least, words.len())?;
    copies::fetch_listed(z, tree, list, whole, least, words);
    Ok(())
}

// The whole buckets back into the tree. The least records of the others are asked for and not stored.
pub fn store(
    h: u64,
    z: u64,
    tree: &mut [u64],
    list: &[u64],
    whole: usize,
    least: usize,
    words: &[u64],
) -> Result<(), Reason>
    ensures { Stores h z tree.old list.now whole least words.now result tree.new }
{
    refusing::of_copy(h, z, tree.len(), list, whole, least, words.len())?;
    copies::store_listed(z, tree, list, whole, words);
    Ok(())
}
