// The call that a frame asks for.
use crate::ended::Ended;
use image::CARD_WORDS;
use told::ANSWER_WORDS;

// The op and its arguments: those that a call does not use are not looked at.
pub(crate) const ASKED_WORDS: usize = 9;

#[derive(Clone, Copy)]
pub(crate) enum Op {
    Start,
    Insert,
    Extract,
    Delete,
    FindMin,
    Withdraw,
    Finish,
    Fill,
    Fetch,
    Store,
}

impl TryFrom<u64> for Op {
    type Error = Ended;

    fn try_from(number: u64) -> Result<Op, Ended> {
        match number {
            1 => Ok(Op::Start),
            2 => Ok(Op::Insert),
            3 => Ok(Op::Extract),
            4 => Ok(Op::Delete),
            5 => Ok(Op::FindMin),
            6 => Ok(Op::Withdraw),
            7 => Ok(Op::Finish),
            8 => Ok(Op::Fill),
            9 => Ok(Op::Fetch),
            10 => Ok(Op::Store),
            _ => Err(Ended::NoFrame),
        }
    }
}

impl Op {
    // The call on the state that the frame brought: the refusal's number, or 0.
    pub(crate) fn call(
        self,
        asked: &[u64; ASKED_WORDS],
        card: &mut [u64; CARD_WORDS],
        answer: &mut [u64; ANSWER_WORDS],
        list: &mut [u64],
        words: &mut [u64],
        tree: &mut [u64],
    ) -> u64 {
        let [_, a, b, c, d, e, ..] = *asked;
        match self {
            Op::Start => driver::nwidarap_start(card, answer, a, b, c, d),
            Op::Insert => driver::nwidarap_insert(card, answer, a, b, c, d, e, list),
            Op::Extract => driver::nwidarap_extract(card, answer, list),
            Op::Delete => driver::nwidarap_delete(card, answer, a, b, list),
            Op::FindMin => driver::nwidarap_find_min(card, answer),
            Op::Withdraw => driver::nwidarap_withdraw(card, answer),
            Op::Finish => driver::nwidarap_finish(card, answer, words),
            Op::Fill => driver::nwidarap_fill(answer, a, b, tree),
            Op::Fetch => {
                driver::nwidarap_fetch(answer, a, b, c as usize, d as usize, list, tree, words)
            }
            Op::Store => {
                driver::nwidarap_store(answer, a, b, c as usize, d as usize, list, words, tree)
            }
        }
    }
}
