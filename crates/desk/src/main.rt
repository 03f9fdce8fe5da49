// The desk: document 01, "The desk program reads lines and plays both sides." The files `stdin` and `stdout` beside src/ are the
// paper's input and whole output.
//
// What an input makes the desk print is proved in `sitting`, whatever chunks it comes in; here bytes are read and written, and
// nothing else. Stands on `sitting`.
#![tactic(auto)]

use sitting::Sitting;
use std::io;
use std::io::Read;

// The words that are lent for a tree.
const TREE_WORDS: usize = 8192;

const CHUNK: usize = 4096;

// Room for many replies: all of it is written at once.
const ROOM: usize = 4096;

// Hands in a chunk until all of it is taken.
fn pass(rt: &impl Print, sitting: Sitting, tree: &mut [u64], chunk: &[u8]) -> io::Result<Sitting> {
    let mut out = [0u8; ROOM];
    let mut after = sitting;
    let mut rest = chunk;
    while rest.len() > 0 {
        let fed = sitting::feed(after, tree, rest, &mut out);
        rt.write_all(&out[..fed.written])?;
        after = fed.sitting;
        rest = &rest[fed.taken..];
    }
    Ok(after)
}

// The end of the input.
fn end(rt: &impl Print, sitting: Sitting, tree: &mut [u64]) -> io::Result<()> {
    let mut out = [0u8; ROOM];
    let written = sitting::close(sitting, tree, &mut out);
    rt.write_all(&out[..written])
}

// A proved loop has to end, and nothing says that the input does, so that the turns are counted up to a number that no run
// uses up.
fn main(rt: HostRuntime) -> io::Result<()> {
    let mut input = rt.stdin();
    let mut chunk = [0u8; CHUNK];
    let mut tree = [0u64; TREE_WORDS];
    let mut sitting = sitting::open();
    for _ in 0..u64::MAX {
        let n = input.read(&mut chunk)?;
        if n == 0 {
            break;
        }
        sitting = pass(&rt, sitting, &mut tree, &chunk[..n])?;
    }
    end(&rt, sitting, &mut tree)
}
