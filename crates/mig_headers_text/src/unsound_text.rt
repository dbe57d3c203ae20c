ghost use Rattle.mig_headers_text.specs.Common.{Puts, FaultHasCause};
ghost use Rattle.mig_headers_text.specs.UnsoundTexts.{number_of_unsound, words_of_unsound, text_of_unsound};

use crate::text::{Arguments, Printed, put_words};
use mig_bytes::{Sink, WriteFailed};
use mig_headers::Unsound;

impl Printed for Unsound {
    ghost number_told = { number_of_unsound };

    ghost words_told = { words_of_unsound };

    fn words(self) -> (u64, &'static str, Arguments) {
        match self {
            Unsound::Missing(kind) => (1, "Missing", Arguments::One(kind)),
            Unsound::P2mFrame(index) => (2, "P2mFrame", Arguments::One(index)),
            Unsound::Superpage(pfn, slot) => (3, "Superpage", Arguments::Two(pfn, slot)),
            Unsound::NoFrame(pfn, slot) => (4, "NoFrame", Arguments::Two(pfn, slot)),
            Unsound::GdtEnts(id, count) => (5, "GdtEnts", Arguments::Two(id, count)),
            Unsound::VcpuFrame(id, field) => (6, "VcpuFrame", Arguments::Two(id, field)),
            Unsound::BadContext(fault) => (7, "BadContext", Arguments::Context(fault)),
        }
    }
}

/// Writes why a host isn't sound as it is printed: its number, its name and its arguments, parted by one space. After
/// `WriteFailed` some first bytes are appended, but not all.
pub fn put_unsound<K: Sink>(sink: &mut K, unsound: Unsound) -> Result<(), WriteFailed>
    ensures bytes { Puts (text_of_unsound unsound) (K.written sink.old) (K.written sink.new) result }
    ensures cause { FaultHasCause (K.faults sink.old) (K.faults sink.new) result }
{
    put_words(sink, unsound)
}
