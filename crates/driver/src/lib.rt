// The entrance for drivers in C or Rust: every call of card and rack, on numbers and lent words. Document 01, "one thin
// second entrance keeps the card where the driver lent it, and equals the first".
//
// The card is the words of `image`. Each call returns the refusal's number, or 0, and fills an answer of six words, all 0
// for a refusal. A refused call leaves card and every lent slice as they were. `driver_c` exports the calls to C, under the same names;
// the header for C is nwidarap.h in this crate's folder. Stands on `record`, `path`, `lists`, `refusal`, `request`, `answers`, `settle`,
// `card`, `image`, `copies`, `rack`, `held` and `told`.
//
// Kept: numbers, lengths and pointers as parameters, and a number as the answer: the interface of C has no other.
#![tactic(auto)]

mod requests;
mod store;

pub use requests::{
    nwidarap_delete, nwidarap_extract, nwidarap_find_min, nwidarap_finish, nwidarap_insert,
    nwidarap_start, nwidarap_withdraw,
};
pub use store::{nwidarap_fetch, nwidarap_fill, nwidarap_store};
