use mig_headers::{Cause, Kind, Place};
use mig_records::RecordHead;

/// What a step passed on.
#[derive(Clone, Copy, Debug, PartialEq, Eq)]
pub enum Step {
    /// The first 8 bytes of the input, or of the image inside a wrapper; `wrapped` where they are the ident of a libxl
    /// stream.
    Marker { wrapped: bool },
    /// The rest of an image header.
    Version(u32),
    /// A domain header.
    Kind(Kind),
    /// The head of a record; `wrapped` where it is a record of a libxl stream.
    Head { wrapped: bool, head: RecordHead },
    /// The words of a PAGE_DATA.
    Words,
    /// At most 4096 bytes of something else.
    Piece,
    /// Nothing: the stream is over.
    Done,
}

/// Why a stream isn't passed on to its end.
#[derive(Clone, Copy, Debug, PartialEq, Eq)]
pub enum RelayAnswer {
    /// The first fault of the input, and its place.
    Refused(Place, Cause),
    /// A read of the source failed.
    ReadFault,
    /// A write of the sink failed.
    WriteFault,
    /// No memory was found.
    Memory,
}

/// What was passed on.
#[derive(Clone, Copy, Debug, PartialEq, Eq)]
pub struct Relayed {
    /// How many records the image has, with END and optional ones.
    pub records: u32,
    /// How many bytes were written; the count stands still at the end of 64 bits.
    pub bytes: u64,
}
