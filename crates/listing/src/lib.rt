// The bucket list of a job: document 01, "A request, step by step". It is named in lent places; and whether places and
// fetched words are enough for it is told by the height alone.
// Stands on `path`, `lists`, `request`.
#![tactic(auto)]

ghost use Rattle.std.specs.Prelude.{◌≡◌, ◌≤◌, ltb, length};
ghost use Rattle.lists.specs.BucketList.{Names, counts, fetched_for};
ghost use Rattle.listing.specs.Listing.{list_for, Listable, places_asked, words_asked};

use lists::Listed;
use path::{Sizes, bucket_words};
use record::RECORD_WORDS;
use request::Job;

// For crates above: the bucket list of a job, laid in the lent places.
pub fn list_for(sizes: Sizes, job: Job, list: &mut [u64]) -> Listed
    requires { Listable sizes job (length list.old) }
    ensures { Names (list_for sizes.h job) list.old list.new result }
{
    match job {
        Job::Path { leaf, .. } => lists::list_path(sizes, leaf, list),
        Job::Pair { first, second, .. } => lists::list_pair(sizes, first, second, list),
    }
}

// How many numbers the list of a job has.
fn counts_for(sizes: Sizes, job: Job) -> Listed
    requires { (1 ≤ sizes.h) × (sizes.h ≤ 16) }
    ensures { result ≡ counts (list_for sizes.h job) }
{
    match job {
        Job::Path { .. } => lists::path_counts(sizes),
        Job::Pair { .. } => lists::pair_counts(sizes),
    }
}

// The words that are fetched for a list of so many numbers.
fn fetched_for(counts: Listed, z: u64) -> usize
    requires { (z ≤ 5) × ((counts.whole ≤ 32) × (counts.least ≤ 32)) }
    ensures { result ≡ fetched_for z counts }
{
    counts.whole * bucket_words(z) + counts.least * RECORD_WORDS
}

// For crates above: the list of a job has more numbers than so many places.
pub fn is_list_longer(sizes: Sizes, job: Job, room: usize) -> bool
    requires { (1 ≤ sizes.h) × (sizes.h ≤ 16) }
    ensures { result ≡ ltb room (places_asked sizes.h job) }
{
    let counts = counts_for(sizes, job);
    room < counts.whole + counts.least
}

// For crates above: more words are fetched for the list of a job than so many.
pub fn are_words_more(sizes: Sizes, job: Job, room: usize) -> bool
    requires { (1 ≤ sizes.h) × ((sizes.h ≤ 16) × (sizes.z ≤ 5)) }
    ensures { result ≡ ltb room (words_asked sizes job) }
{
    let counts = counts_for(sizes, job);
    room < fetched_for(counts, sizes.z)
}
