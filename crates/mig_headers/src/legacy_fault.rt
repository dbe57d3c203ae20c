use crate::ContextFault;

/// The part of a legacy stream that was refused.
#[derive(Clone, Copy, Debug, PartialEq, Eq)]
pub enum LegacyPlace {
    /// The first 8 bytes.
    Start,
    /// The chunk of this number, counted from 0.
    Chunk(u64),
    /// What follows the chunks: three frame numbers and the context.
    Tail,
    /// The device model's record.
    Device,
}

/// Why a part of a legacy stream is refused. The variants are in the order of their numbers, from 1.
#[derive(Clone, Copy, Debug, PartialEq, Eq)]
pub enum LegacyCause {
    /// The stream ends before this part does.
    Truncated,
    /// The stream is an image or a libxl stream, and no legacy one.
    Modern,
    /// The stream was made by tools of 32 bits.
    Tools32,
    /// Verify mode, or a PV guest.
    VerifyOrPv,
    /// Transcendent memory.
    Tmem,
    /// Compressed pages.
    Compressed,
    /// No chunk has this number, whose negative is the chunk's type.
    UnknownChunk(u64),
    /// A batch of more than 1024 words.
    BatchTooLarge(u64),
    /// The word of this number has this type number, which is reserved.
    BadPageType(u64, u64),
    /// Bits 63 to 32 of the word of this number aren't all 0.
    WordHigh(u64),
    /// This greatest vCPU id is 4096 or more, or below 0, as a number of 32 bits.
    BadVcpuMax(u64),
    /// The data of the toolstack are wrong from this offset on.
    BadToolstack(u64),
    /// Only one of the two chunks on the I/O request server's pages was there.
    UnpairedIoreq,
    /// The context isn't a chain of entries.
    BadContext(ContextFault),
    /// What follows the context doesn't begin as a device model's record.
    BadSignature,
    /// There are 2^28 chunks before this one.
    TooManyChunks,
    /// The guest has more than 2^24 frames.
    TooManyFrames,
    /// This length is more than a body may have.
    BodyTooLong(u64),
    /// The pairs of the toolstack spell more than 2^24 bytes.
    TooManyPairs,
}
