// The fields of a line: document 01, "Fields are parted by one space". For crates above. Stands on `decimal`.
#![tactic(auto)]

ghost use Rattle.std.specs.Prelude.{◌≡◌, ◌+◌, length, drop};
ghost use Rattle.fields.specs.Pieces.{before, same_bytes};
ghost use Rattle.fields.specs.Behind.{behind, numbered, Numbered};

// Parts the fields of a line.
pub const SPACE: u8 = b' ';

// Where the piece ends that starts at `from`: at the next byte `at`, or with the bytes.
pub fn end_of(bytes: &[u8], from: usize, at: u8) -> usize
    ensures { result ≡ from + length (before at (drop from bytes.now)) }
{
    let rest = bytes.get(from..).unwrap_or(&[]);
    from + rest.iter().position(|&b| b == at).unwrap_or(rest.len())
}

// Kept: `unique` has a theorem for it, and the promises name it.
pub fn same(a: &[u8], b: &[u8]) -> bool
    ensures { result ≡ same_bytes a.now b.now }
{
    a == b
}

// The numbers behind a field that ends at `from`: whether there are just as many as `out` has places, and these.
pub fn read_numbers(line: &[u8], from: usize, out: &mut [u64]) -> bool
    ensures { Numbered (behind (drop from line.now)) out.old result out.new }
{
    let mut at = from;
    for place in out.iter_mut() {
        if at >= line.len() {
            return false;
        }
        let start = at + 1;
        at = end_of(line, start, SPACE);
        let Some(n) = decimal::read(&line[start..at]) else {
            return false;
        };
        *place = n;
    }
    at >= line.len()
}

// The numbers behind a field that ends at `from`, if the fields there are numbers and just this many.
pub fn numbers<const N: usize>(line: &[u8], from: usize) -> Option<[u64; N]>
    ensures { result ≡ numbered N (behind (drop from line.now)) }
{
    let mut found = [0; N];
    read_numbers(line, from, &mut found).then_some(found)
}
