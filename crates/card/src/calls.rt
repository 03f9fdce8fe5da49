// The calls on a card but finish: document 01, "A request, step by step". Each hands back the new card and the answer; a
// refused call hands back the card as it came, and its number.
ghost use Rattle.std.specs.Prelude.{◌≡◌};
ghost use Rattle.refusal.specs.Reason.{reason_number, refusal_in};
ghost use Rattle.refusal.specs.Refusal.{first_given};
ghost use Rattle.path.specs.Sizes.{sizes_of};
ghost use Rattle.card.specs.Answers.{refused, Answered};
ghost use Rattle.card.specs.Tables.{parts_of};
ghost use Rattle.card.specs.Calls.{call_table, fresh_card, zero_card, start_table, started, begun_with, Begins, min_table, found_min, withdraw_table, withdrawn};

use crate::{Card, Done};
use answers::Answer;
use checks::Call;
use lists::Listed;
use parts::Parts;
use path::{ROOT_PLACES, Sizes};
use record::{Leaf, Record, Stamp};
use refusal::Reason;
use request::{Request, job_of};

impl Card {
    // A card on which nothing is finished, live or waiting.
    pub fn fresh(sizes: Sizes) -> Card
        ensures { result ≡ fresh_card sizes }
    {
        Card {
            sizes,
            t: 0,
            c: 0,
            root: [Record::DUMMY; ROOT_PLACES],
            least: Record::DUMMY,
            waiting: None,
        }
    }

    // What a refused start hands back: 0 in every field. Its height is 0, so every call refuses it.
    fn zero() -> Card
        ensures { result ≡ zero_card }
    {
        let none = Record {
            key: 0,
            value: 0,
            label: Leaf(0),
            stamp: Stamp(0),
        };
        Card {
            sizes: Sizes {
                h: 0,
                z: 0,
                r: 0,
                t: 0,
            },
            t: 0,
            c: 0,
            root: [none; ROOT_PLACES],
            least: none,
            waiting: None,
        }
    }

    pub fn start(h: u64, z: u64, r: u64, t: u64) -> Done
        ensures { Answered zero_card (first_given (start_table (sizes_of h z r t))) (started (sizes_of h z r t)) result }
    {
        let sizes = Sizes { h, z, r, t };
        if !sizes.in_range() {
            return Card::zero().refuse(Reason::BadSize);
        }
        Done {
            card: Card::fresh(sizes),
            answer: Answer::Started,
        }
    }

    // All but the root and the waiting request.
    pub(crate) fn parts(self) -> Parts
        ensures { result ≡ parts_of self }
    {
        Parts {
            sizes: self.sizes,
            t: self.t,
            c: self.c,
            least: self.least,
        }
    }

    // Refused for this reason.
    pub(crate) fn refuse(self, reason: Reason) -> Done
        ensures { result ≡ refused self (reason_number reason) }
    {
        Done {
            card: self,
            answer: Answer::Refused(reason.number()),
        }
    }

    // Why a call is refused, but for Damaged.
    pub(crate) fn why(self, call: Call) -> Result<(), Reason>
        ensures { refusal_in result ≡ first_given (call_table self call) }
    {
        checks::why(self.root, self.parts(), self.waiting, call)
    }

    // The request waits, and its list has so many numbers.
    fn begun(self, request: Request, counts: Listed) -> Done
        ensures { result ≡ begun_with self request counts }
    {
        Done {
            card: Card {
                waiting: Some(request),
                ..self
            },
            answer: Answer::Listed(counts),
        }
    }

    // Begin: a request that is not refused waits, and its list is laid.
    pub fn begin(self, request: Request, list: &mut [u64]) -> Done
        ensures { Begins self request list.old list.new result }
    {
        let room = list.len();
        if let Err(reason) = self.why(Call::Begin { request, room }) {
            return self.refuse(reason);
        }
        let job = job_of(self.parts(), request);
        let counts = listing::list_for(self.sizes, job, list);
        self.begun(request, counts)
    }

    // At once, and no finished request: the list is empty, and no words are moved.
    pub fn find_min(self) -> Done
        ensures { Answered self (first_given (min_table self)) (found_min self) result }
    {
        if let Err(reason) = self.why(Call::Min) {
            return self.refuse(reason);
        }
        Done {
            card: self,
            answer: Answer::Least {
                event: self.least,
                words: 0,
            },
        }
    }

    pub fn withdraw(self) -> Done
        ensures { Answered self (first_given (withdraw_table self)) (withdrawn self) result }
    {
        if let Err(reason) = self.why(Call::Withdraw) {
            return self.refuse(reason);
        }
        Done {
            card: Card {
                waiting: None,
                ..self
            },
            answer: Answer::Withdrawn,
        }
    }
}
