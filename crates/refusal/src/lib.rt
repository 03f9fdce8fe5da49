// Why a call is refused: document 01, "Refusal numbers". Stands on no other crate.
#![tactic(auto)]

ghost use Rattle.std.specs.Prelude.{◌≡◌};
ghost use Rattle.refusal.specs.Reason.{reason_number, refusal_in};

#[derive(Clone, Copy, PartialEq, Eq)]
pub enum Reason {
    // a size is outside its range
    BadSize,
    // begin or FindMin while a request waits
    Busy,
    // finish or withdraw and none waits
    Idle,
    // t = T
    Spent,
    // Insert with key 2^64 - 1
    BadKey,
    // label N or more, or an eviction leaf outside its half
    BadLeaf,
    // Delete with stamp t or more
    BadStamp,
    // FindMin or ExtractMin with c = 0
    Empty,
    // Insert with c = N
    Full,
    // Insert, every root slot real
    Overflow,
    // a lent slice too short, or a tree of another length
    ShortRoom,
    // what was fetched cannot be
    Damaged,
    // a card that cannot be
    BadCard,
    // the rack is given a number outside 2 to 2N-1
    BadBucket,
}

impl Reason {
    // The paper's number. No reason has 0: it stands for none.
    pub fn number(self) -> u64
        ensures { result ≡ reason_number self }
    {
        match self {
            Reason::BadSize => 1,
            Reason::Busy => 2,
            Reason::Idle => 3,
            Reason::Spent => 4,
            Reason::BadKey => 5,
            Reason::BadLeaf => 6,
            Reason::BadStamp => 7,
            Reason::Empty => 8,
            Reason::Full => 9,
            Reason::Overflow => 10,
            Reason::ShortRoom => 11,
            Reason::Damaged => 12,
            Reason::BadCard => 13,
            Reason::BadBucket => 14,
        }
    }
}

// For crates above: the number that a call answers which is done or refused.
pub fn number_of(outcome: Result<(), Reason>) -> u64
    ensures { result ≡ refusal_in outcome }
{
    match outcome {
        Ok(()) => 0,
        Err(reason) => reason.number(),
    }
}
