ghost use Rattle.mig_headers_text.specs.Common.{Puts, FaultHasCause, number_of_image_cause};
ghost use Rattle.mig_headers_text.specs.ImageTexts.{words_of_image_cause, text_of_image_cause, text_of_image_place};

use crate::text::{Arguments, Printed, put_numbered, put_words};
use mig_bytes::{Sink, WriteFailed, put_all};
use mig_headers::{ImageCause, ImagePlace};

impl Printed for ImageCause {
    ghost number_told = { number_of_image_cause };

    ghost words_told = { words_of_image_cause };

    fn words(self) -> (u64, &'static str, Arguments) {
        match self {
            ImageCause::Truncated => (1, "Truncated", Arguments::Nothing),
            ImageCause::NotImage => (2, "NotImage", Arguments::Nothing),
            ImageCause::BadKind(kind) => (3, "BadKind", Arguments::One(kind)),
            ImageCause::Reserved => (4, "Reserved", Arguments::Nothing),
            ImageCause::Width(width) => (5, "Width", Arguments::One(width)),
            ImageCause::FrameCount(count) => (6, "FrameCount", Arguments::One(count)),
            ImageCause::BadPageType(kind) => (7, "BadPageType", Arguments::One(kind)),
            ImageCause::FrameOrder(pfn) => (8, "FrameOrder", Arguments::One(pfn)),
            ImageCause::FrameOutside(pfn) => (9, "FrameOutside", Arguments::One(pfn)),
            ImageCause::MachineFrame(mfn) => (10, "MachineFrame", Arguments::One(mfn)),
            ImageCause::MachineTwice(mfn) => (11, "MachineTwice", Arguments::One(mfn)),
            ImageCause::PartKey(code) => (12, "PartKey", Arguments::One(code)),
            ImageCause::PartOrder(code) => (13, "PartOrder", Arguments::One(code)),
            ImageCause::PartMany(code) => (14, "PartMany", Arguments::One(code)),
            ImageCause::PartLength(length) => (15, "PartLength", Arguments::One(length)),
            ImageCause::PartBytes => (16, "PartBytes", Arguments::Nothing),
            ImageCause::PartPadding => (17, "PartPadding", Arguments::Nothing),
            ImageCause::ZeroPage(pfn) => (18, "ZeroPage", Arguments::One(pfn)),
        }
    }
}

/// Writes a place of a guest image's refusal as it is printed. After `WriteFailed` some first bytes are appended, but not
/// all.
pub fn put_image_place<K: Sink>(sink: &mut K, place: ImagePlace) -> Result<(), WriteFailed>
    ensures bytes { Puts (text_of_image_place place) (K.written sink.old) (K.written sink.new) result }
    ensures cause { FaultHasCause (K.faults sink.old) (K.faults sink.new) result }
{
    match place {
        ImagePlace::Head => put_all(sink, b"Head"),
        ImagePlace::Frame(number) => put_numbered(sink, b"Frame ", number),
        ImagePlace::Parts => put_all(sink, b"Parts"),
        ImagePlace::Part(number) => put_numbered(sink, b"Part ", number),
    }
}

/// Writes a cause of a guest image's refusal as it is printed: its number, its name and its argument, parted by one space.
/// After `WriteFailed` some first bytes are appended, but not all.
pub fn put_image_cause<K: Sink>(sink: &mut K, cause: ImageCause) -> Result<(), WriteFailed>
    ensures bytes { Puts (text_of_image_cause cause) (K.written sink.old) (K.written sink.new) result }
    ensures cause { FaultHasCause (K.faults sink.old) (K.faults sink.new) result }
{
    put_words(sink, cause)
}
