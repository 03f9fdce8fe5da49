// BadCard on a card's parts, all but the waiting request: document 01, "Refusal numbers". The root goes in as words, four to
// a place, so that nothing copies 64 records. The card that a call is given and the card that a finish would send out are
// judged by the same function. Stands on `record`, `path`, `root`, `parts`, `stamps`.
#![tactic(auto)]

ghost use Rattle.std.specs.Prelude.{◌≡◌, ◌≤◌};
ghost use Rattle.record.specs.Words.{records};
ghost use Rattle.judge.specs.BadParts.{odd_least, root_fails, bad_parts};

use parts::Parts;
use path::ROOT_WORDS;
use record::{RECORD_WORDS, Record, Rule};

fn is_least_odd(rule: Rule, c: u64, least: Record) -> bool
    ensures { result ≡ odd_least rule c least }
{
    if least.is_dummy() {
        c > 0
    } else {
        c == 0 || !least.is_proper(rule)
    }
}

// What BadCard asks of the root, in one pass over its slots, one over the places past them, and the stamps.
fn is_root_bad(root: &[u64; ROOT_WORDS], r: usize, rule: Rule, c: u64, least: Record) -> bool
    requires { r ≤ 64 }
    ensures { result ≡ root_fails r (records root.now) rule c least }
{
    let end = RECORD_WORDS * r;
    let slots = &root[..end];
    !root::slots_fine(slots, rule, least, c)
        || !root::all_dummies(&root[end..])
        || stamps::stamp_twice(slots)
}

// For crates above: BadCard but for the waiting request, whatever the numbers are.
pub fn are_parts_bad(root: &[u64; ROOT_WORDS], parts: Parts) -> bool
    ensures { result ≡ bad_parts parts (records root.now) }
{
    let sizes = parts.sizes;
    // the rule can be read only of sizes in range
    if !sizes.in_range() {
        return true;
    }
    let rule = parts.rule();
    if parts.t > sizes.t || parts.c > rule.leaves || parts.c > parts.t {
        return true;
    }
    is_root_bad(root, sizes.r as usize, rule, parts.c, parts.least)
        || is_least_odd(rule, parts.c, parts.least)
}
