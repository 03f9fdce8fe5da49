// Finish: document 01, "Finish takes the fetched words in list order." A finish that is refused hands back the card as it came
// and leaves every word; the request still waits.
ghost use Rattle.std.specs.Prelude.{◌≡◌, ◌≤◌};
ghost use Rattle.card.specs.Finish.{done_with, Finishes};

use crate::{Card, Done};
use checks::Call;
use refusal::Reason;
use request::{Request, job_of};
use settle::Settled;

impl Card {
    // The card that comes out, with the answer: one request more is finished, and none waits.
    fn done_with(self, request: Request, out: Settled) -> Done
        requires { self.t ≤ 4294967295 }
        ensures { result ≡ done_with self request out }
    {
        let Settled {
            root,
            least,
            c,
            found,
            moved,
        } = out;
        let answer = answers::answer_to(self.parts(), request, found, moved);
        let card = Card {
            t: self.t + 1,
            c,
            root,
            least,
            waiting: None,
            ..self
        };
        Done { card, answer }
    }

    pub fn finish(self, words: &mut [u64]) -> Done
        ensures { Finishes self words.old words.new result }
    {
        let room = words.len();
        if let Err(reason) = self.why(Call::Finish { room }) {
            return self.refuse(reason);
        }
        // nothing waits: `why` has given 3 already
        let Some(request) = self.waiting else {
            return self.refuse(Reason::Idle);
        };
        let root = self.root;
        let parts = self.parts();
        let Ok(out) = finishes::settle_job(words, root, parts, job_of(parts, request)) else {
            return self.refuse(Reason::Damaged);
        };
        self.done_with(request, out)
    }
}
