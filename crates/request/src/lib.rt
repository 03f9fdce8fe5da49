// A request: document 01, "A request, step by step". What is asked, when a request is refused with a number from 4 to 10
// ("Refusal numbers"), and what it asks of the tree (job.rt). What waits on a card is an `Option<Request>`. The root goes in as
// words, four to a place, so that nothing copies 64 records. Stands on `record`, `path`, `parts`, `refusal`, `root`.
#![tactic(auto)]

mod job;

ghost use Rattle.std.specs.Prelude.{◌≡◌, ◌≤◌};
ghost use Rattle.record.specs.Words.{records};
ghost use Rattle.refusal.specs.Reason.{refusal_in};
ghost use Rattle.refusal.specs.Refusal.{first_given};
ghost use Rattle.request.specs.Tables.{insert_rows, extract_rows, delete_rows, request_rows, waiting_rows, waits};

pub use job::{Job, job_of};
use parts::Parts;
use path::leaves;
use record::{DUMMY_KEY, Leaf, Stamp};
use refusal::Reason;

#[derive(Clone, Copy, PartialEq, Eq)]
pub enum Request {
    Insert {
        key: u64,
        value: u64,
        label: Leaf,
        first: Leaf,
        second: Leaf,
    },
    Extract,
    Delete {
        label: Leaf,
        stamp: Stamp,
    },
}

// Kept: `unique` has a theorem for it, and the promises name it.
#[tactic(auto, unfolding(crate::specs::Tables::waits))]
pub fn is_waiting(waiting: Option<Request>) -> bool
    ensures { result ≡ waits waiting }
{
    waiting.is_some()
}

// The first refusal from 4 to 10 that an Insert meets.
// Kept: four functions ask that h be at most 16, and no type says it: `Parts` are a forged card's too, and a type for parts in
// range would say every field again.
#[tactic(auto, unfolding(refusal::specs::Refusal::first_given, crate::specs::Tables::insert_rows))]
fn why_insert(
    root: &[u64],
    parts: Parts,
    key: u64,
    label: Leaf,
    first: Leaf,
    second: Leaf,
) -> Result<(), Reason>
    requires { parts.sizes.h ≤ 16 }
    ensures { refusal_in result ≡ first_given (insert_rows parts (records root.now) key label first second) }
{
    if parts.t == parts.sizes.t {
        return Err(Reason::Spent);
    }
    if key == DUMMY_KEY {
        return Err(Reason::BadKey);
    }
    let n = leaves(parts.sizes.h);
    let half = n / 2;
    if label.0 >= n || first.0 >= half || second.0 < half || second.0 >= n {
        return Err(Reason::BadLeaf);
    }
    if parts.c == n {
        return Err(Reason::Full);
    }
    if root::all_real(root, parts.sizes.r as usize) {
        return Err(Reason::Overflow);
    }
    Ok(())
}

#[tactic(auto, unfolding(refusal::specs::Refusal::first_given, crate::specs::Tables::extract_rows))]
fn why_extract(parts: Parts) -> Result<(), Reason>
    ensures { refusal_in result ≡ first_given (extract_rows parts) }
{
    if parts.t == parts.sizes.t {
        return Err(Reason::Spent);
    }
    if parts.c == 0 {
        return Err(Reason::Empty);
    }
    Ok(())
}

#[tactic(auto, unfolding(refusal::specs::Refusal::first_given, crate::specs::Tables::delete_rows))]
fn why_delete(parts: Parts, label: Leaf, stamp: Stamp) -> Result<(), Reason>
    requires { parts.sizes.h ≤ 16 }
    ensures { refusal_in result ≡ first_given (delete_rows parts label stamp) }
{
    if parts.t == parts.sizes.t {
        return Err(Reason::Spent);
    }
    let rule = parts.rule();
    if label.0 >= rule.leaves {
        return Err(Reason::BadLeaf);
    }
    if !stamp.is_known(rule) {
        return Err(Reason::BadStamp);
    }
    Ok(())
}

// For crates above: the first refusal from 4 to 10 that a request meets.
#[tactic(auto, unfolding(crate::specs::Tables::request_rows))]
pub fn why_request(root: &[u64], parts: Parts, request: Request) -> Result<(), Reason>
    requires { parts.sizes.h ≤ 16 }
    ensures { refusal_in result ≡ first_given (request_rows parts (records root.now) request) }
{
    match request {
        Request::Insert {
            key,
            label,
            first,
            second,
            ..
        } => why_insert(root, parts, key, label, first, second),
        Request::Extract => why_extract(parts),
        Request::Delete { label, stamp } => why_delete(parts, label, stamp),
    }
}

// For crates above: the same of what waits. Where nothing does, nothing is refused.
#[tactic(auto, unfolding(refusal::specs::Refusal::first_given))]
pub fn why_waiting(root: &[u64], parts: Parts, waiting: Option<Request>) -> Result<(), Reason>
    requires { parts.sizes.h ≤ 16 }
    ensures { refusal_in result ≡ first_given (waiting_rows parts (records root.now) waiting) }
{
    match waiting {
        None => Ok(()),
        Some(request) => why_request(root, parts, request),
    }
}
