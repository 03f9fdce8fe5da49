// Evictions along the path of leaf 0 in a tree of height 2 with one slot everywhere: the root's slot, level 1's, level 2's.
use crate::line;
use path::Sizes;
use record::{Leaf, Record, Stamp};
use std::io;

fn event(key: u64, label: u64) -> Record {
    Record {
        key,
        value: 0,
        label: Leaf(label),
        stamp: Stamp(key),
    }
}

fn evicted(rt: &impl Print, root: Record, one: Record, two: Record) -> io::Result<()> {
    let sizes = Sizes {
        h: 2,
        z: 1,
        r: 1,
        t: 16,
    };
    let mut w = [0u64; 12];
    root.write(&mut w, 0);
    one.write(&mut w, 1);
    two.write(&mut w, 2);
    way::evict(&mut w, sizes, Leaf(0));
    line::numbers(rt, &w)
}

// The record at level 1 goes down to leaf 0, and the root's takes its place; a full way stays as it is.
pub(crate) fn pins(rt: &impl Print) -> io::Result<()> {
    evicted(rt, event(3, 1), event(1, 0), Record::DUMMY)?;
    evicted(rt, event(3, 1), event(1, 0), event(2, 0))
}
