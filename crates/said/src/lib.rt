// An answer of the card, printed: document 01, "Otherwise: 0 for size; 0, label, stamp, words for insert; ..". Stands on `record`,
// `answers`, `decimal` and `frames`.
#![tactic(auto)]

ghost use Rattle.decimal.specs.Promises.{Laid};
ghost use Rattle.frames.specs.Answer.{answer_line};
ghost use Rattle.said.specs.Said.{numbers_of, event_numbers};

use answers::Answer;
use record::Record;

// An event, and the words moved for it.
fn print_event(event: Record, words: u64, out: &mut [u8]) -> usize
    ensures { Laid (answer_line (event_numbers event words)) out.old result out.new }
{
    frames::print_answer(
        &[
            0,
            event.key,
            event.value,
            event.label.0,
            event.stamp.0,
            words,
        ],
        out,
    )
}

// The answer's numbers at the head of the slice, and how many bytes that took; 0 where there is no room, and nothing is written.
// Kept: 0 for none, as of a number that is printed.
pub fn print_said(answer: Answer, out: &mut [u8]) -> usize
    ensures { Laid (answer_line (numbers_of answer)) out.old result out.new }
{
    match answer {
        Answer::Started | Answer::Listed { .. } | Answer::Withdrawn => {
            frames::print_answer(&[0], out)
        }
        Answer::Least { event, words } | Answer::Extracted { event, words } => {
            print_event(event, words, out)
        }
        Answer::Inserted {
            label,
            stamp,
            words,
        } => frames::print_answer(&[0, label.0, stamp.0, words], out),
        Answer::Deleted { found, words } => {
            frames::print_answer(&[0, u64::from(found), words], out)
        }
        Answer::Refused(number) => frames::print_answer(&[number], out),
    }
}
