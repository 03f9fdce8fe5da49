// The three ways a line ends: `?`, an answer that leaves the desk as it was, an answer with the card that came of it.
ghost use Rattle.std.specs.Prelude.{◌≡◌};
ghost use Rattle.steps.specs.Step.{turn_of, unread, kept, tells};

use crate::Desk;
use answers::Answer;
use card::Done;

pub fn unread_by(desk: &mut Desk) -> Option<Answer>
    ensures { turn_of desk.new result ≡ unread desk.old }
{
    None
}

pub fn kept_by(desk: &mut Desk, answer: Answer) -> Option<Answer>
    ensures { turn_of desk.new result ≡ kept desk.old answer }
{
    Some(answer)
}

pub fn told_by(desk: &mut Desk, done: Done) -> Option<Answer>
    ensures { turn_of desk.new result ≡ tells done }
{
    *desk = Some(done.card);
    kept_by(desk, done.answer)
}
