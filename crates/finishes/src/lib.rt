// The finish of a job on the card's parts: document 01, "Finish takes the fetched words in list order." Whichever job it is, it is
// worked out and written, or it is Damaged and nothing is changed.
// Stands on `parts`, `request`, `listing`, `settle`, `removal`, `insertion`.
#![tactic(auto)]

ghost use Rattle.settle.specs.Settled.{Settles};
ghost use Rattle.lists.specs.BucketList.{words_moved};
ghost use Rattle.listing.specs.Listing.{list_for};
ghost use Rattle.finishes.specs.Finishes.{left_for, damaged_for, Finishable};

use parts::Parts;
use path::ROOT_PLACES;
use record::Record;
use request::Job;
use settle::{Damaged, Settled};

// For crates above: the finish of a job.
pub fn settle_job(
    words: &mut [u64],
    root: [Record; ROOT_PLACES],
    parts: Parts,
    job: Job,
) -> Result<Settled, Damaged>
    requires { Finishable parts job words.old }
    ensures { Settles (damaged_for parts root job words.old) (left_for parts root job words.old) (words_moved parts.sizes.z (list_for parts.sizes.h job)) words.old words.new result }
{
    match job {
        Job::Path { leaf, label, stamp } => removal::settle_removal(
            words, root, parts, leaf, label, stamp,
        ),
        Job::Pair { first, second, new } => insertion::settle_insertion(
            words, root, parts, first, second, new,
        ),
    }
}
