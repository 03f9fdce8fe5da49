// A job: what a request, on a card of these parts, asks of the tree. What is listed, fetched, worked out and stored for a request
// is told by its job alone; only its refusals and its answer go by its kind.
ghost use Rattle.std.specs.Prelude.{◌≡◌};
ghost use Rattle.request.specs.Job.{job_of};

use crate::Request;
use parts::Parts;
use record::{Leaf, Record, Stamp};

// One path, and the label and stamp of the record to take out; or two paths, and the record to put in. The leaf of the path stands
// apart from the record's label.
#[derive(Clone, Copy, PartialEq, Eq)]
pub enum Job {
    Path {
        leaf: Leaf,
        label: Leaf,
        stamp: Stamp,
    },
    Pair {
        first: Leaf,
        second: Leaf,
        new: Record,
    },
}

// For crates above: the job of a request.
pub fn job_of(parts: Parts, request: Request) -> Job
    ensures { result ≡ job_of parts request }
{
    match request {
        Request::Insert {
            key,
            value,
            label,
            first,
            second,
        } => {
            let stamp = Stamp(parts.t);
            let new = Record::proper(key, value, label, stamp);
            Job::Pair { first, second, new }
        }
        Request::Extract => {
            let label = parts.least.label;
            let stamp = parts.least.stamp;
            Job::Path {
                leaf: label,
                label,
                stamp,
            }
        }
        Request::Delete { label, stamp } => Job::Path {
            leaf: label,
            label,
            stamp,
        },
    }
}
