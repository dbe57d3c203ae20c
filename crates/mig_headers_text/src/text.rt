#![tactic(auto, using(mig_bytes::proofs::Texts::puts_then, mig_bytes::proofs::Texts::puts_part, mig_bytes::proofs::Texts::puts_part_behind, crate::proofs::Writing::two_words))]

ghost use Rattle.std.specs.Prelude.{◌≡◌, ℕ, List, [], ◌∷◌, ◌++◌, codes, decimal};
ghost use Rattle.mig_headers_text.specs.Common.{Puts, FaultHasCause, number_of_cause};
ghost use Rattle.mig_headers_text.specs.Arguments.{argument_texts};
ghost use Rattle.mig_headers_text.specs.Texts.{words_of_cause, words_of_context, spaced, text_of_cause, text_of_place};

use itoa::Buffer;
use mig_bytes::{Sink, WriteFailed, put_all};
use mig_headers::{Cause, ContextFault, Place};

/// What is behind a cause's name.
#[derive(Clone, Copy)]
pub enum Arguments {
    Nothing,
    One(u64),
    Two(u64, u64),
    Three(u64, u64, u64),
    Context(ContextFault),
}

impl Arguments {
    /// Writes each after a space.
    fn put<K: Sink>(self, sink: &mut K) -> Result<(), WriteFailed>
        ensures bytes { Puts (spaced (argument_texts self)) (K.written sink.old) (K.written sink.new) result }
        ensures cause { FaultHasCause (K.faults sink.old) (K.faults sink.new) result }
    {
        match self {
            Arguments::Nothing => Ok(()),
            Arguments::One(a) => put_spaced_number(sink, a),
            Arguments::Two(a, b) => put_two(sink, a, b),
            Arguments::Three(a, b, c) => put_three(sink, a, b, c),
            Arguments::Context(fault) => put_context_fault(sink, fault),
        }
    }
}

/// What is printed of a cause: its number, its name and its arguments.
pub trait Printed: Copy {
    /// Its number.
    ghost number_told: { Self → ℕ };

    /// Its name and the texts of its arguments.
    ghost words_told: { Self → List (List ℕ) };

    /// The number of this cause, its name, and what is behind its name.
    fn words(self) -> (u64, &'static str, Arguments)
        ensures number { result.0 ≡ number_told self }
        ensures words { (result.1.now ∷ argument_texts result.2) ≡ words_told self };
}

impl Printed for Cause {
    ghost number_told = { number_of_cause };

    ghost words_told = { words_of_cause };

    fn words(self) -> (u64, &'static str, Arguments) {
        match self {
            Cause::Truncated => (1, "Truncated", Arguments::Nothing),
            Cause::NotStream => (2, "NotStream", Arguments::Nothing),
            Cause::BadId => (3, "BadId", Arguments::Nothing),
            Cause::BadVersion(version) => (4, "BadVersion", Arguments::One(version)),
            Cause::BigEndian => (5, "BigEndian", Arguments::Nothing),
            Cause::BadKind(kind) => (6, "BadKind", Arguments::One(kind)),
            Cause::BadPageShift(shift) => (7, "BadPageShift", Arguments::One(shift)),
            Cause::BodyTooLong(len) => (8, "BodyTooLong", Arguments::One(len)),
            Cause::Unsupported(kind) => (9, "Unsupported", Arguments::One(kind)),
            Cause::UnknownMandatory(kind) => (10, "UnknownMandatory", Arguments::One(kind)),
            Cause::WrongKind(kind) => (11, "WrongKind", Arguments::One(kind)),
            Cause::OutOfOrder(rule) => (12, "OutOfOrder", Arguments::One(rule)),
            Cause::BadLength(len) => (13, "BadLength", Arguments::One(len)),
            Cause::NoPages => (14, "NoPages", Arguments::Nothing),
            Cause::BadPageType(entry, nibble) => (15, "BadPageType", Arguments::Two(entry, nibble)),
            Cause::PfnOutside(entry, pfn) => (16, "PfnOutside", Arguments::Two(entry, pfn)),
            Cause::Superpage(entry, slot) => (17, "Superpage", Arguments::Two(entry, slot)),
            Cause::EntryOutside(entry, slot, pfn) => (
                18,
                "EntryOutside",
                Arguments::Three(entry, slot, pfn),
            ),
            Cause::Pv32 => (19, "Pv32", Arguments::Nothing),
            Cause::BadPvInfo => (20, "BadPvInfo", Arguments::Nothing),
            Cause::P2mStart(first) => (21, "P2mStart", Arguments::One(first)),
            Cause::VcpuId(id) => (23, "VcpuId", Arguments::One(id)),
            Cause::GdtEnts(count) => (24, "GdtEnts", Arguments::One(count)),
            Cause::BadContext(fault) => (25, "BadContext", Arguments::Context(fault)),
            Cause::ParamIndex(index) => (26, "ParamIndex", Arguments::One(index)),
            Cause::Missing(kind) => (27, "Missing", Arguments::One(kind)),
            Cause::P2mFrame(index) => (28, "P2mFrame", Arguments::One(index)),
            Cause::TargetAbsent(pfn, slot) => (29, "TargetAbsent", Arguments::Two(pfn, slot)),
            Cause::VcpuFrame(id, field) => (30, "VcpuFrame", Arguments::Two(id, field)),
            Cause::TooManyRecords => (31, "TooManyRecords", Arguments::Nothing),
            Cause::TooManyFrames => (32, "TooManyFrames", Arguments::Nothing),
            Cause::BadPairs(offset) => (33, "BadPairs", Arguments::One(offset)),
            Cause::BadKey(offset) => (34, "BadKey", Arguments::One(offset)),
            Cause::BadEmulator(id) => (35, "BadEmulator", Arguments::One(id)),
            Cause::EmulatorForPv => (36, "EmulatorForPv", Arguments::Nothing),
            Cause::ContextCount => (37, "ContextCount", Arguments::Nothing),
            Cause::TooManyPairs => (38, "TooManyPairs", Arguments::Nothing),
            Cause::EmulatorIndex(index) => (39, "EmulatorIndex", Arguments::One(index)),
        }
    }
}

/// Writes a place of a refusal as it is printed. After `WriteFailed` some first bytes are appended, but not all.
pub fn put_place<K: Sink>(sink: &mut K, place: Place) -> Result<(), WriteFailed>
    ensures bytes { Puts (text_of_place place) (K.written sink.old) (K.written sink.new) result }
    ensures cause { FaultHasCause (K.faults sink.old) (K.faults sink.new) result }
{
    match place {
        Place::ImageHeader => put_all(sink, b"ImageHeader"),
        Place::DomainHeader => put_all(sink, b"DomainHeader"),
        Place::Record(number) => put_numbered(sink, b"Record ", number),
        Place::LibxlHeader => put_all(sink, b"LibxlHeader"),
        Place::LibxlRecord(number) => put_numbered(sink, b"LibxlRecord ", number),
    }
}

/// Writes a name and a number.
pub(crate) fn put_numbered<K: Sink>(
    sink: &mut K,
    name: &[u8],
    number: u64,
) -> Result<(), WriteFailed>
    ensures bytes { Puts (name.now ++ decimal number) (K.written sink.old) (K.written sink.new) result }
    ensures cause { FaultHasCause (K.faults sink.old) (K.faults sink.new) result }
{
    put_all(sink, name)?;
    put_number(sink, number)
}

/// Writes a cause as it is printed: its number, its name and its arguments, parted by one space. After `WriteFailed` some
/// first bytes are appended, but not all.
pub fn put_cause<K: Sink>(sink: &mut K, cause: Cause) -> Result<(), WriteFailed>
    ensures bytes { Puts (text_of_cause cause) (K.written sink.old) (K.written sink.new) result }
    ensures cause { FaultHasCause (K.faults sink.old) (K.faults sink.new) result }
{
    put_words(sink, cause)
}

/// Writes a number, a name and arguments, parted by one space.
pub(crate) fn put_words<K: Sink, C: Printed>(sink: &mut K, cause: C) -> Result<(), WriteFailed>
    ensures bytes { Puts (decimal (C.number_told cause) ++ spaced (C.words_told cause)) (K.written sink.old) (K.written sink.new) result }
    ensures cause { FaultHasCause (K.faults sink.old) (K.faults sink.new) result }
{
    let (number, name, arguments) = cause.words();
    put_number(sink, number)?;
    put_name_and_arguments(sink, name, arguments)
}

/// Writes a name and arguments, each after a space.
fn put_name_and_arguments<K: Sink>(
    sink: &mut K,
    name: &str,
    arguments: Arguments,
) -> Result<(), WriteFailed>
    ensures bytes { Puts (spaced (name.now ∷ argument_texts arguments)) (K.written sink.old) (K.written sink.new) result }
    ensures cause { FaultHasCause (K.faults sink.old) (K.faults sink.new) result }
{
    put_word(sink, name)?;
    arguments.put(sink)
}

/// Writes what is wrong with a context, each word after a space.
fn put_context_fault<K: Sink>(sink: &mut K, fault: ContextFault) -> Result<(), WriteFailed>
    ensures bytes { Puts (spaced (words_of_context fault)) (K.written sink.old) (K.written sink.new) result }
    ensures cause { FaultHasCause (K.faults sink.old) (K.faults sink.new) result }
{
    match fault {
        ContextFault::NoHeader => put_word(sink, "NoHeader"),
        ContextFault::HeaderSize(len) => put_fault(sink, "HeaderSize", len),
        ContextFault::ShortEntry(offset) => put_fault(sink, "ShortEntry", offset),
        ContextFault::NoEnd => put_word(sink, "NoEnd"),
    }
}

/// Writes a name and a number, each after a space.
fn put_fault<K: Sink>(sink: &mut K, name: &str, number: u64) -> Result<(), WriteFailed>
    ensures bytes { Puts (spaced (name.now ∷ decimal number ∷ [])) (K.written sink.old) (K.written sink.new) result }
    ensures cause { FaultHasCause (K.faults sink.old) (K.faults sink.new) result }
{
    put_word(sink, name)?;
    put_spaced_number(sink, number)
}

/// Writes two numbers, each after a space.
fn put_two<K: Sink>(sink: &mut K, a: u64, b: u64) -> Result<(), WriteFailed>
    ensures bytes { Puts (spaced (decimal a ∷ decimal b ∷ [])) (K.written sink.old) (K.written sink.new) result }
    ensures cause { FaultHasCause (K.faults sink.old) (K.faults sink.new) result }
{
    put_spaced_number(sink, a)?;
    put_spaced_number(sink, b)
}

/// Writes three numbers, each after a space.
fn put_three<K: Sink>(sink: &mut K, a: u64, b: u64, c: u64) -> Result<(), WriteFailed>
    ensures bytes { Puts (spaced (decimal a ∷ decimal b ∷ decimal c ∷ [])) (K.written sink.old) (K.written sink.new) result }
    ensures cause { FaultHasCause (K.faults sink.old) (K.faults sink.new) result }
{
    put_spaced_number(sink, a)?;
    put_two(sink, b, c)
}

/// Writes a number after a space.
fn put_spaced_number<K: Sink>(sink: &mut K, number: u64) -> Result<(), WriteFailed>
    ensures bytes { Puts (codes " " ++ decimal number) (K.written sink.old) (K.written sink.new) result }
    ensures cause { FaultHasCause (K.faults sink.old) (K.faults sink.new) result }
{
    put_all(sink, b" ")?;
    put_number(sink, number)
}

/// Writes a word after a space.
fn put_word<K: Sink>(sink: &mut K, word: &str) -> Result<(), WriteFailed>
    ensures bytes { Puts (codes " " ++ word.now) (K.written sink.old) (K.written sink.new) result }
    ensures cause { FaultHasCause (K.faults sink.old) (K.faults sink.new) result }
{
    put_all(sink, b" ")?;
    put_all(sink, word.as_bytes())
}

/// Writes a number in decimal digits. After `WriteFailed` some first bytes are appended, but not all.
pub fn put_number<K: Sink>(sink: &mut K, number: u64) -> Result<(), WriteFailed>
    ensures bytes { Puts (decimal number) (K.written sink.old) (K.written sink.new) result }
    ensures cause { FaultHasCause (K.faults sink.old) (K.faults sink.new) result }
{
    let mut digits = Buffer::new();
    put_all(sink, digits.format(number).as_bytes())
}
