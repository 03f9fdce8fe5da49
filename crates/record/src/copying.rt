// Words copied one by one: what they mean is nothing to a copy.
ghost use Rattle.std.specs.Prelude.{◌≡◌, ◌+◌, ◌≤◌, length, drop};
ghost use Rattle.std.proofs.Math.Seq.{paste};

// For crates above: n words of `from`, from `start` on, to word `at` of `to` and on.
// Kept: `copy_from_slice` calls memmove, and the archive for C may call memcpy and memset alone (nwidarap.h).
pub fn copy_words(to: &mut [u64], at: usize, from: &[u64], start: usize, n: usize)
    requires { (at + n ≤ length to.old) × (start + n ≤ length from.now) }
    ensures { to.new ≡ paste to.old at (drop start from.now) n }
{
    for i in 0..n {
        to[at + i] = from[start + i];
    }
}
