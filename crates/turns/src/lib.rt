// What the desk does with a line, whatever it says: document 01, "What the desk sees". A line in, a reply out; the desk and
// the tree's words are changed where they are lent. Stands on `lines`, `steps`, `asked` and `afresh`.
#![tactic(auto)]

ghost use Rattle.steps.specs.Step.{Steps, turn_of};

use answers::Answer;
use lines::Line;
use steps::Desk;

pub fn step(desk: &mut Desk, line: Line, tree: &mut [u64]) -> Option<Answer>
    ensures { Steps desk.old line tree.old tree.new (turn_of desk.new result) }
{
    match line {
        Line::Unreadable => steps::unread_by(desk),
        Line::Size { h, z, r, t } => afresh::size(desk, h, z, r, t, tree),
        Line::Min => afresh::min(desk),
        Line::Ask(request) => asked::ask(desk, request, tree),
    }
}
