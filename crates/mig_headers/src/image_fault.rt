/// The part of a guest image that was refused.
#[derive(Clone, Copy, Debug, PartialEq, Eq)]
pub enum ImagePlace {
    Head,
    /// The frame of this number, counted from 0.
    Frame(u64),
    /// The number of parts.
    Parts,
    /// The part of this number, counted from 0.
    Part(u64),
}

/// Why a part of a guest image is refused. The variants are in the order of their numbers, from 1.
#[derive(Clone, Copy, Debug, PartialEq, Eq)]
pub enum ImageCause {
    /// The file ends before this part does.
    Truncated,
    /// The file begins neither with `XGIMAGE1` nor with `XGIMAGE2`.
    NotImage,
    /// The guest's kind is this number, and neither 1 nor 2.
    BadKind(u64),
    /// A field or a bit that has to be 0 isn't.
    Reserved,
    /// This width is above what the reader was to take, in an image of version 1 above 2^28, for a PV guest 0 or above 2^32.
    Width(u64),
    /// This number of frames is more than 2^24 or more than the width.
    FrameCount(u64),
    /// No frame of this kind of guest has a page type of this number.
    BadPageType(u64),
    /// This frame number isn't above the one before.
    FrameOrder(u64),
    /// This frame number isn't below the width.
    FrameOutside(u64),
    /// This machine frame is 0, or 2^40 or more.
    MachineFrame(u64),
    /// An earlier frame has this machine frame.
    MachineTwice(u64),
    /// No part of this kind of guest has this code with these keys.
    PartKey(u64),
    /// The key, which has this code, isn't above the one before.
    PartOrder(u64),
    /// The policy of this code has one entry more than 65536.
    PartMany(u64),
    /// This part may not have this length.
    PartLength(u64),
    /// The bytes aren't pairs of texts in canonical form.
    PartBytes,
    /// The padding isn't zero.
    PartPadding,
    /// The page of this frame number is all zero, and is there where the zero flag had to say so.
    ZeroPage(u64),
}
