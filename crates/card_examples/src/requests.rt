// Requests to make, and to find waiting. Every Insert here has the value 60.
use record::{Leaf, Stamp};
use request::Request;

pub(crate) fn insert(key: u64, label: u64, first: u64, second: u64) -> Request {
    Request::Insert {
        key,
        value: 60,
        label: Leaf(label),
        first: Leaf(first),
        second: Leaf(second),
    }
}

pub(crate) fn delete(label: u64, stamp: u64) -> Request {
    Request::Delete {
        label: Leaf(label),
        stamp: Stamp(stamp),
    }
}
