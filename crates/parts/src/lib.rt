// A card's parts, all but the root and the waiting request: document 01, "The card holds sizes, the count t of finished requests,
// the count c of live events, the root's slots, the root's least record and the waiting request, if any."
//
// They go as one value, so that a function which only hands them on does not look inside. The root goes beside them: it is 64
// records, and no call copies it more often than it must. Stands on `record` and `path`.
#![tactic(auto)]

ghost use Rattle.std.specs.Prelude.{◌≡◌, ◌≤◌};
ghost use Rattle.parts.specs.Parts.{rule_of};

use path::{Sizes, leaves};
use record::{Record, Rule, Stamp};

#[derive(Clone, Copy)]
pub struct Parts {
    pub sizes: Sizes,
    pub t: u64,
    pub c: u64,
    pub least: Record,
}

impl Parts {
    // For crates above: what is proper on the card.
    pub fn rule(self) -> Rule
        requires { self.sizes.h ≤ 16 }
        ensures { result ≡ rule_of self }
    {
        Rule {
            leaves: leaves(self.sizes.h),
            below: Stamp(self.t),
        }
    }
}
