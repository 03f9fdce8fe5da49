// Plain decimal: document 01, "What the desk sees": "numbers are plain decimal below 2^64 without leading zeros".
//
// A field is read if it is the one way to write some number, and a number is printed in that way; no sum wraps. Stands on
// no other crate.
#![tactic(auto)]

ghost use Rattle.std.specs.Prelude.{◌≡◌};
ghost use Rattle.decimal.specs.Digits.{width_of, decimal};
ghost use Rattle.decimal.specs.Field.{leading_zero, reads};
ghost use Rattle.decimal.specs.Promises.{Laid};

fn leading_zero(field: &[u8]) -> bool
    ensures { result ≡ leading_zero field.now }
{
    field.len() > 1 && field[0] == b'0'
}

// The number that a field is, byte for byte.
pub fn read(field: &[u8]) -> Option<u64>
    ensures { result ≡ reads field.now }
{
    if field.is_empty() {
        return None;
    }
    if leading_zero(field) {
        return None;
    }
    let mut n: u64 = 0;
    for &b in field {
        if !b.is_ascii_digit() {
            return None;
        }
        n = n.checked_mul(10)?.checked_add(u64::from(b - b'0'))?;
    }
    Some(n)
}

// How many digits a number has; 0 has one.
pub fn width(n: u64) -> usize
    ensures { result ≡ width_of n }
{
    n.max(1).ilog10() as usize + 1
}

// The number at the head of the slice, and how many bytes that took; 0 where there is no room, and nothing is written.
// Kept: 0 for none: no number has 0 digits, and `Laid` says it of whatever is printed, up to the desk.
pub fn print(n: u64, out: &mut [u8]) -> usize
    ensures { Laid (decimal n) out.old result out.new }
{
    let k = width(n);
    if out.len() < k {
        return 0;
    }
    let mut rest = n;
    for i in (0..k).rev() {
        out[i] = b'0' + (rest % 10) as u8;
        rest /= 10;
    }
    k
}
