/// A read, a write or a call of a machine failed.
#[derive(Clone, Copy, Debug, PartialEq, Eq)]
pub struct Failed;

/// A read of the source failed.
#[derive(Clone, Copy, Debug, PartialEq, Eq)]
pub struct ReadFailed;

/// A write of the sink failed.
#[derive(Clone, Copy, Debug, PartialEq, Eq)]
pub struct WriteFailed;

/// No memory was found.
#[derive(Clone, Copy, Debug, PartialEq, Eq)]
pub struct Memory;
