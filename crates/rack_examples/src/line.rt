// Lines of the output: a name, then its numbers.
ghost use Rattle.std.specs.Prelude.{◌<◌};

use shown_lines::Numbers;
use std::io;

pub(crate) fn words(rt: &impl Print, text: &str, list: &[u64]) -> io::Result<()> {
    println!(rt; "{text}{}", Numbers(list))
}

// A line for each of the numbers, with the words of its part, as far as there are words.
pub(crate) fn parts(
    rt: &impl Print,
    text: &str,
    numbers: &[u64],
    size: usize,
    list: &[u64],
) -> io::Result<()>
    requires { 0 < size }
{
    for (&number, words) in numbers.iter().zip(list.chunks_exact(size)) {
        println!(rt; "{text} {number}:{}", Numbers(words))?;
    }
    Ok(())
}
