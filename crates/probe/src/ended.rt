// Why no more frames are answered.
use std::io;
use std::io::ErrorKind;

#[derive(Debug, Drop)]
pub(crate) enum Ended {
    // No whole frame is left, or one asks for what no call has.
    NoFrame,
    Failed(io::Error),
}

impl From<io::Error> for Ended {
    fn from(error: io::Error) -> Ended {
        if error.kind() == ErrorKind::UnexpectedEof {
            return Ended::NoFrame;
        }
        Ended::Failed(error)
    }
}
