// A record's seat in the root: document 01, "Insert puts the record, with stamp t, into the lowest dummy slot of the root".
ghost use Rattle.std.specs.Prelude.{◌≡◌, ◌≤◌, ◌*◌, length};
ghost use Rattle.record.specs.Words.{records};
ghost use Rattle.pair.specs.PairWork.{seated};

use record::Record;

// For crates above: the record takes the lowest dummy slot of the root, the first r places of its way. Where there is
// none nothing changes; begin has refused that (10).
pub fn seat(w: &mut [u64], r: usize, new: Record)
    requires { 4 * r ≤ length w.old }
    ensures { records w.new ≡ seated r new (records w.old) }
{
    if let Some(place) = root::lowest_dummy(w, r) {
        new.write(w, place);
    }
}
