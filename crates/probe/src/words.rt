// Words as little-endian bytes, in and out. The largest slice of words is a tree of 8,192.
ghost use Rattle.std.specs.Prelude.{◌≤◌, length};

use std::io;
use std::io::Read;

// The bytes of as many words.
const SPACE: usize = 65536;

// Reads all words of the slice; an error where the input ends before.
pub(crate) fn read(rt: &impl Input, to: &mut [u64]) -> io::Result<()>
    requires { length to.old ≤ 8192 }
{
    let mut space = [0u8; SPACE];
    let bytes = &mut space[..8 * to.len()];
    rt.reader().read_exact(bytes)?;
    let (words, _) = bytes.as_chunks::<8>();
    for (to, word) in to.iter_mut().zip(words) {
        *to = u64::from_le_bytes(*word);
    }
    Ok(())
}

// Writes all words of the slice.
pub(crate) fn write(rt: &impl Print, from: &[u64]) -> io::Result<()>
    requires { length from.now ≤ 8192 }
{
    let mut space = [0u8; SPACE];
    let bytes = &mut space[..8 * from.len()];
    let (words, _) = bytes.as_chunks_mut::<8>();
    for (to, word) in words.iter_mut().zip(from) {
        *to = word.to_le_bytes();
    }
    rt.write_all(bytes)
}
