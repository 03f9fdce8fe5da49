// The lines `size` and `min`: document 01, "`size h Z R T` starts afresh". For crates above. Stands on `path`, `card`, `rack`,
// `lines` and `steps`.
#![tactic(auto)]

ghost use Rattle.std.specs.Prelude.{◌≡◌};
ghost use Rattle.lines.specs.declared.Line.{Line};
ghost use Rattle.steps.specs.Step.{Steps, min_of, turn_of};

use answers::Answer;
use card::Card;
use path::Sizes;
use steps::Desk;

// "a `size` within its ranges whose tree is over 8,192 words"
const TREE_MOST: usize = 8192;

pub fn size(desk: &mut Desk, h: u64, z: u64, r: u64, t: u64, tree: &mut [u64]) -> Option<Answer>
    ensures { Steps desk.old (Line.Size h z r t) tree.old tree.new (turn_of desk.new result) }
{
    let done = Card::start(h, z, r, t);
    let sizes = Sizes { h, z, r, t };
    if !sizes.in_range() {
        return steps::kept_by(desk, done.answer);
    }
    let words = steps::tree_words(h, z);
    if words > TREE_MOST || words > tree.len() {
        return steps::unread_by(desk);
    }
    // A tree of these sizes' words is not refused.
    let _ = rack::fill(&mut tree[..words], h, z);
    steps::told_by(desk, done)
}

pub fn min(desk: &mut Desk) -> Option<Answer>
    ensures { turn_of desk.new result ≡ min_of desk.old }
{
    let Some(card) = *desk else {
        return steps::unread_by(desk);
    };
    steps::told_by(desk, card.find_min())
}
