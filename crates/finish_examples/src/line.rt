// Lines of the table: some numbers, or an answer's number and its six values.
use answers::Answer;
use shown_lines::Numbers;
use std::io;

pub(crate) fn numbers(rt: &impl Print, list: &[u64]) -> io::Result<()> {
    match list.split_first() {
        Some((first, rest)) => println!(rt; "{first}{}", Numbers(rest)),
        None => Ok(()),
    }
}

pub(crate) fn answer(rt: &impl Print, answer: Answer) -> io::Result<()> {
    let values = answers::values_of(answer);
    println!(rt; "{}{}", answers::number_of(answer), Numbers(&values))
}
