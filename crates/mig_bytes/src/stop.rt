ghost use Rattle.std.specs.Prelude.{◌≡◌};
ghost use Rattle.mig_bytes.specs.Judged.{stop_at};

use thiserror::Error;

/// What a source had for a buffer.
#[derive(Clone, Copy, Debug, PartialEq, Eq)]
pub enum Got {
    /// All that the buffer takes.
    Whole,
    /// This many bytes, and then it ended.
    Short(usize),
}

/// Why a vector didn't get all its bytes.
#[derive(Clone, Copy, Debug, PartialEq, Eq, Error)]
pub enum TakeFault {
    /// A read of the source failed.
    #[error("a read failed")]
    Read,
    /// The vector couldn't grow.
    #[error("no memory was found")]
    Memory,
}

/// Why a part of an input isn't read: it is refused for a cause, a read failed, or there is no memory.
#[derive(Clone, Copy, Debug, PartialEq, Eq)]
pub enum Stop<C> {
    Refused(C),
    ReadFault,
    Memory,
}

impl<C: Copy> Stop<C> {
    /// The same, with the place of the part.
    pub fn at<P: Copy>(self, place: P) -> Stop<(P, C)>
        ensures { result ≡ stop_at place self }
    {
        match self {
            Stop::Refused(cause) => Stop::Refused((place, cause)),
            Stop::ReadFault => Stop::ReadFault,
            Stop::Memory => Stop::Memory,
        }
    }
}
