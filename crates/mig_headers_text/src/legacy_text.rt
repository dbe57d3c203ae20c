ghost use Rattle.mig_headers_text.specs.Common.{Puts, FaultHasCause, number_of_legacy_cause};
ghost use Rattle.mig_headers_text.specs.LegacyTexts.{words_of_legacy_cause, text_of_legacy_cause, text_of_legacy_place};

use crate::text::{Arguments, Printed, put_numbered, put_words};
use mig_bytes::{Sink, WriteFailed, put_all};
use mig_headers::{LegacyCause, LegacyPlace};

impl Printed for LegacyCause {
    ghost number_told = { number_of_legacy_cause };

    ghost words_told = { words_of_legacy_cause };

    fn words(self) -> (u64, &'static str, Arguments) {
        match self {
            LegacyCause::Truncated => (1, "Truncated", Arguments::Nothing),
            LegacyCause::Modern => (2, "Modern", Arguments::Nothing),
            LegacyCause::Tools32 => (3, "Tools32", Arguments::Nothing),
            LegacyCause::VerifyOrPv => (4, "VerifyOrPv", Arguments::Nothing),
            LegacyCause::Tmem => (5, "Tmem", Arguments::Nothing),
            LegacyCause::Compressed => (6, "Compressed", Arguments::Nothing),
            LegacyCause::UnknownChunk(number) => (7, "UnknownChunk", Arguments::One(number)),
            LegacyCause::BatchTooLarge(count) => (8, "BatchTooLarge", Arguments::One(count)),
            LegacyCause::BadPageType(entry, nibble) => (
                9,
                "BadPageType",
                Arguments::Two(entry, nibble),
            ),
            LegacyCause::WordHigh(entry) => (10, "WordHigh", Arguments::One(entry)),
            LegacyCause::BadVcpuMax(max) => (11, "BadVcpuMax", Arguments::One(max)),
            LegacyCause::BadToolstack(offset) => (12, "BadToolstack", Arguments::One(offset)),
            LegacyCause::UnpairedIoreq => (13, "UnpairedIoreq", Arguments::Nothing),
            LegacyCause::BadContext(fault) => (14, "BadContext", Arguments::Context(fault)),
            LegacyCause::BadSignature => (15, "BadSignature", Arguments::Nothing),
            LegacyCause::TooManyChunks => (16, "TooManyChunks", Arguments::Nothing),
            LegacyCause::TooManyFrames => (17, "TooManyFrames", Arguments::Nothing),
            LegacyCause::BodyTooLong(len) => (18, "BodyTooLong", Arguments::One(len)),
            LegacyCause::TooManyPairs => (19, "TooManyPairs", Arguments::Nothing),
        }
    }
}

/// Writes a place of a legacy stream's refusal as it is printed. After `WriteFailed` some first bytes are appended, but not
/// all.
pub fn put_legacy_place<K: Sink>(sink: &mut K, place: LegacyPlace) -> Result<(), WriteFailed>
    ensures bytes { Puts (text_of_legacy_place place) (K.written sink.old) (K.written sink.new) result }
    ensures cause { FaultHasCause (K.faults sink.old) (K.faults sink.new) result }
{
    match place {
        LegacyPlace::Start => put_all(sink, b"Start"),
        LegacyPlace::Chunk(number) => put_numbered(sink, b"Chunk ", number),
        LegacyPlace::Tail => put_all(sink, b"Tail"),
        LegacyPlace::Device => put_all(sink, b"Device"),
    }
}

/// Writes a cause of a legacy stream's refusal as it is printed: its number, its name and its arguments, parted by one
/// space. After `WriteFailed` some first bytes are appended, but not all.
pub fn put_legacy_cause<K: Sink>(sink: &mut K, cause: LegacyCause) -> Result<(), WriteFailed>
    ensures bytes { Puts (text_of_legacy_cause cause) (K.written sink.old) (K.written sink.new) result }
    ensures cause { FaultHasCause (K.faults sink.old) (K.faults sink.new) result }
{
    put_words(sink, cause)
}
