// What a call asks of the card's parts before anything else: document 01, "Order on the card: 13, 2 or 3, 4, 5, 6, 7, 8, 9,
// 10, 11, 12, each where it applies". Each function gives the first refusal that is met.
// The root is written out as words once in a call, and every test reads those.
// Stands on `parts`, `request`, `listing`, `judge`, `gather`, `refusal`.
#![tactic(auto)]

ghost use Rattle.std.specs.Prelude.{◌≡◌};
ghost use Rattle.record.specs.Words.{records};
ghost use Rattle.refusal.specs.Reason.{refusal_in};
ghost use Rattle.refusal.specs.Refusal.{first_given};
ghost use Rattle.checks.specs.Checks.{bad_with, busy_rows, idle_rows, call_rows};

use parts::Parts;
use path::{ROOT_PLACES, ROOT_WORDS};
use record::Record;
use refusal::Reason;
use request::{Request, is_waiting, job_of, why_request, why_waiting};

// A call on the card: FindMin; withdraw; begin, with room for so many numbers; finish, with so many words.
#[derive(Clone, Copy)]
pub enum Call {
    Min,
    Withdraw,
    Begin { request: Request, room: usize },
    Finish { room: usize },
}

// What every check looks at: the root as words, the card's other parts, and what waits.
#[derive(Clone, Copy)]
struct Seen {
    root: [u64; ROOT_WORDS],
    parts: Parts,
    waiting: Option<Request>,
}

// BadCard: the parts are bad, or a request waits that begin would refuse.
fn is_bad(card: &Seen) -> bool
    ensures { result ≡ bad_with card.now.parts (records card.now.root) card.now.waiting }
{
    judge::are_parts_bad(&card.root, card.parts)
        || why_waiting(&card.root, card.parts, card.waiting).is_err()
}

// No request may wait.
#[tactic(auto, unfolding(refusal::specs::Refusal::first_given))]
fn why_busy(card: &Seen) -> Result<(), Reason>
    ensures { refusal_in result ≡ first_given (busy_rows (bad_with card.now.parts (records card.now.root) card.now.waiting) card.now.waiting) }
{
    if is_bad(card) {
        return Err(Reason::BadCard);
    }
    if is_waiting(card.waiting) {
        return Err(Reason::Busy);
    }
    Ok(())
}

// A request must wait.
#[tactic(auto, unfolding(refusal::specs::Refusal::first_given))]
fn why_idle(card: &Seen) -> Result<(), Reason>
    ensures { refusal_in result ≡ first_given (idle_rows (bad_with card.now.parts (records card.now.root) card.now.waiting) card.now.waiting) }
{
    if is_bad(card) {
        return Err(Reason::BadCard);
    }
    if !is_waiting(card.waiting) {
        return Err(Reason::Idle);
    }
    Ok(())
}

// No request may wait, and some event must be live.
fn why_min(card: &Seen) -> Result<(), Reason>
    ensures { refusal_in result ≡ first_given (call_rows (bad_with card.now.parts (records card.now.root) card.now.waiting) card.now.parts (records card.now.root) card.now.waiting Call.Min) }
{
    why_busy(card)?;
    if card.parts.c == 0 {
        return Err(Reason::Empty);
    }
    Ok(())
}

// No request may wait, the one that is begun is within its rules, and its list has room.
fn why_begin(card: &Seen, request: Request, room: usize) -> Result<(), Reason>
    ensures { refusal_in result ≡ first_given (call_rows (bad_with card.now.parts (records card.now.root) card.now.waiting) card.now.parts (records card.now.root) card.now.waiting (Call.Begin request room)) }
{
    why_busy(card)?;
    why_request(&card.root, card.parts, request)?;
    if listing::is_list_longer(card.parts.sizes, job_of(card.parts, request), room) {
        return Err(Reason::ShortRoom);
    }
    Ok(())
}

// A request must wait, and its words must be there.
#[tactic(auto, unfolding(refusal::specs::Refusal::first_given, crate::specs::Checks::call_rows, request::specs::Tables::waits))]
fn why_finish(card: &Seen, room: usize) -> Result<(), Reason>
    ensures { refusal_in result ≡ first_given (call_rows (bad_with card.now.parts (records card.now.root) card.now.waiting) card.now.parts (records card.now.root) card.now.waiting (Call.Finish room)) }
{
    if is_bad(card) {
        return Err(Reason::BadCard);
    }
    let request = card.waiting.ok_or(Reason::Idle)?;
    if listing::are_words_more(card.parts.sizes, job_of(card.parts, request), room) {
        return Err(Reason::ShortRoom);
    }
    Ok(())
}

#[tactic(auto, unfolding(crate::specs::Checks::call_rows))]
fn why_call(card: &Seen, call: Call) -> Result<(), Reason>
    ensures { refusal_in result ≡ first_given (call_rows (bad_with card.now.parts (records card.now.root) card.now.waiting) card.now.parts (records card.now.root) card.now.waiting call) }
{
    match call {
        Call::Min => why_min(card),
        Call::Withdraw => why_idle(card),
        Call::Begin { request, room } => why_begin(card, request, room),
        Call::Finish { room } => why_finish(card, room),
    }
}

// For crates above: why a call is refused. A finish may still be refused with 12, once what was fetched is looked at.
pub fn why(
    root: [Record; ROOT_PLACES],
    parts: Parts,
    waiting: Option<Request>,
    call: Call,
) -> Result<(), Reason>
    ensures { refusal_in result ≡ first_given (call_rows (bad_with parts root waiting) parts root waiting call) }
{
    let mut card = Seen {
        root: [0; ROOT_WORDS],
        parts,
        waiting,
    };
    gather::load_root(&mut card.root, root, ROOT_PLACES);
    why_call(&card, call)
}
