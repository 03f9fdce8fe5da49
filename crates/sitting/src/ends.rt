// The first and the last of a sitting.
ghost use Rattle.std.specs.Prelude.{◌≡◌};
ghost use Rattle.sitting.specs.Sitting.{begins, Closes};

use crate::{LINE_HELD, Sitting};

// Before the first byte: no `size` was accepted, and nothing is held.
pub fn open() -> Sitting
    ensures { result ≡ begins }
{
    Sitting {
        desk: None,
        line: [0; LINE_HELD],
        held: 0,
    }
}

// The end of the input: "the last line may lack its line end". Hands back how many bytes were
// printed: none where nothing is held.
pub fn close(sitting: Sitting, tree: &mut [u64], out: &mut [u8]) -> usize
    ensures { Closes sitting tree.old tree.new out.old result out.new }
{
    let Sitting {
        mut desk,
        line,
        held,
    } = sitting;
    if held == 0 {
        return 0;
    }
    let n = held.min(LINE_HELD);
    replies::answer_line(&mut desk, &line[..n], tree, out)
}
