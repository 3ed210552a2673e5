// Why the program ends before its last line.
use instruments::refusal::Refusal;
use std::alloc::AllocFailed;
use std::io;

#[derive(Drop)]
pub enum Stop {
    // A quotation, the curve or a question is refused.
    Refusal(Refusal),
    // A line cannot be written, or there is no memory.
    System(io::Error),
}

impl From<Refusal> for Stop {
    fn from(refusal: Refusal) -> Stop {
        Stop::Refusal(refusal)
    }
}

impl From<io::Error> for Stop {
    fn from(error: io::Error) -> Stop {
        Stop::System(error)
    }
}

impl<T: Drop> From<AllocFailed<T>> for Stop {
    fn from(refused: AllocFailed<T>) -> Stop {
        Stop::System(io::Error::from(refused))
    }
}
