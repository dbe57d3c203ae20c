/// The part of a stream that was refused.
#[derive(Clone, Copy, Debug, PartialEq, Eq)]
pub enum Place {
    ImageHeader,
    DomainHeader,
    /// The record of this number, counted from 0.
    Record(u64),
    LibxlHeader,
    /// The record of this number in the libxl stream around an image, counted from 0.
    LibxlRecord(u64),
}

/// What is wrong with a chain of HVM context entries. Offsets count from its first byte.
#[derive(Clone, Copy, Debug, PartialEq, Eq)]
pub enum ContextFault {
    /// The first entry isn't a HEADER, or there is none.
    NoHeader,
    /// The HEADER has this length.
    HeaderSize(u64),
    /// The entry at this offset isn't whole.
    ShortEntry(u64),
    /// The chain stops without an END.
    NoEnd,
}

/// Why a part of a stream is refused. The variants are in the order of their numbers, from 1.
#[derive(Clone, Copy, Debug, PartialEq, Eq)]
pub enum Cause {
    Truncated,
    NotStream,
    BadId,
    BadVersion(u64),
    BigEndian,
    BadKind(u64),
    BadPageShift(u64),
    BodyTooLong(u64),
    Unsupported(u64),
    UnknownMandatory(u64),
    WrongKind(u64),
    OutOfOrder(u64),
    BadLength(u64),
    NoPages,
    BadPageType(u64, u64),
    PfnOutside(u64, u64),
    Superpage(u64, u64),
    EntryOutside(u64, u64, u64),
    Pv32,
    BadPvInfo,
    P2mStart(u64),
    VcpuId(u64),
    GdtEnts(u64),
    BadContext(ContextFault),
    ParamIndex(u64),
    Missing(u64),
    P2mFrame(u64),
    TargetAbsent(u64, u64),
    VcpuFrame(u64, u64),
    TooManyRecords,
    TooManyFrames,
    BadPairs(u64),
    BadKey(u64),
    BadEmulator(u64),
    EmulatorForPv,
    ContextCount,
    TooManyPairs,
    EmulatorIndex(u64),
}
