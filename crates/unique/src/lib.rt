// One answer for every input, theorems alone: document 01, "For every input the promise of each public function determines the
// answer and every lent word afterwards, refusals too; uniqueness is proved".
//
// One definition and one law for all; then each public function, by its own contract as it stands in the source. Stands on every
// crate that has one.
#![tactic(auto)]
