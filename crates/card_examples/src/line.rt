// The name of a case, at the head of its line. The names are read from the input, in the order of the cases:
// a text in the code costs the check far more than the call that it names.
use std::io;
use std::io::Read;

// No name is as long.
const NAME_MOST: u64 = 100;

// One byte of the name, unless it is the line end before it; false after the colon, and where the input ends.
// Kept: whether the name goes on is all there is to answer.
fn copy_byte(rt: &impl Print, input: &mut impl Read) -> io::Result<bool> {
    let mut byte = [0u8; 1];
    if input.read(&mut byte)? == 0 {
        return Ok(false);
    }
    let b = byte[0];
    if b == b'\n' {
        return Ok(true);
    }
    rt.write_all(&byte)?;
    Ok(b != b':')
}

pub(crate) fn name(rt: &(impl Print + Input)) -> io::Result<()> {
    let mut input = rt.reader();
    for _ in 0..NAME_MOST {
        if !copy_byte(rt, &mut input)? {
            break;
        }
    }
    Ok(())
}
