// One frame and its reply: docs/PROBE.md.
ghost use Rattle.std.specs.Prelude.{◌≤◌, length, IfOk};

use crate::ended::Ended;
use crate::op::{ASKED_WORDS, Op};
use crate::words;
use image::CARD_WORDS;
use told::ANSWER_WORDS;

const LIST_MOST: usize = 128;

const WORDS_MOST: usize = 1024;

const TREE_MOST: usize = 8192;

// What stands in every word of the answer before a call, so that a word that the call leaves alone is seen in the reply.
const OLD_ANSWER: u64 = u64::MAX;

// The head of the room, as long as the frame says, and filled from it.
fn slice<'a>(rt: &impl Input, room: &'a mut [u64], count: u64) -> Result<&'a mut [u64], Ended>
    requires { length room.old ≤ 8192 }
    ensures { IfOk result (λ s. length s.now ≤ 8192) }
{
    let Some(slice) = room.get_mut(..count as usize) else {
        return Err(Ended::NoFrame);
    };
    words::read(rt, slice)?;
    Ok(slice)
}

// Answers one frame. The rooms stand ahead of all that may end it: one that is made later is filled with zeros twice.
pub(crate) fn answer_one(rt: &(impl Print + Input)) -> Result<(), Ended> {
    let mut asked = [0u64; ASKED_WORDS];
    let mut card = [0u64; CARD_WORDS];
    let mut lengths = [0u64; 3];
    let mut list_room = [0u64; LIST_MOST];
    let mut words_room = [0u64; WORDS_MOST];
    let mut tree_room = [0u64; TREE_MOST];
    // The op is looked at once its arguments are there too: a frame that is cut short before them is read to its end.
    words::read(rt, &mut asked)?;
    let op = Op::try_from(asked[0])?;
    words::read(rt, &mut card)?;
    words::read(rt, &mut lengths)?;
    let list = slice(rt, &mut list_room, lengths[0])?;
    let buckets = slice(rt, &mut words_room, lengths[1])?;
    let tree = slice(rt, &mut tree_room, lengths[2])?;
    let mut answer = [OLD_ANSWER; ANSWER_WORDS];
    let number = op.call(&asked, &mut card, &mut answer, list, buckets, tree);
    words::write(rt, &[number])?;
    words::write(rt, &answer)?;
    words::write(rt, &card)?;
    words::write(rt, list)?;
    words::write(rt, buckets)?;
    words::write(rt, tree)?;
    Ok(())
}
