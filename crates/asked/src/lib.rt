// The lines that ask for a request: document 01, "one other than `size` before any accepted `size` .. prints `?`". For crates above. Stands on
// `request`, `lines`, `rounds` and `steps`.
#![tactic(auto)]

ghost use Rattle.lines.specs.declared.Line.{Line};
ghost use Rattle.steps.specs.Step.{Steps, turn_of};

use answers::Answer;
use request::Request;
use steps::Desk;

pub fn ask(desk: &mut Desk, request: Request, tree: &mut [u64]) -> Option<Answer>
    ensures { Steps desk.old (Line.Ask request) tree.old tree.new (turn_of desk.new result) }
{
    let Some(card) = *desk else {
        return steps::unread_by(desk);
    };
    let n = steps::used(card.sizes.h, card.sizes.z, tree.len());
    let done = rounds::play(card, request, &mut tree[..n]);
    steps::told_by(desk, done)
}
