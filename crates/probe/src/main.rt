// The probe: each frame of its input is one call of the driver's entrance on raw state, and each reply says all that the call
// left. docs/PROBE.md has the frames. For comparing the proved code with another program, call by call.
//
// Nothing here is promised but that it is safe and ends: no contract can say what is read or written. Stands on
// `image`, `told` and `driver`.
#![tactic(auto)]

mod ended;
mod frame;
mod op;
mod words;

use ended::Ended;
use std::io;

// A proved loop has to end, and nothing says that the input does: the turns are counted up to a number that no run uses up.
fn main(rt: HostRuntime) -> io::Result<()> {
    for _ in 0..u64::MAX {
        match frame::answer_one(&rt) {
            Ok(()) => {}
            Err(Ended::NoFrame) => break,
            Err(Ended::Failed(error)) => return Err(error),
        }
    }
    Ok(())
}
