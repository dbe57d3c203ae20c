ghost use Rattle.std.specs.Prelude.{◌≡◌, ◌≤◌, ◌++◌, codes, decimal};
ghost use Rattle.mig_tool_report.specs.Common.{Puts, FaultHasCause};
ghost use Rattle.mig_tool_report.specs.Outcome.{status_of, line_of};
ghost use Rattle.mig_tool_report.specs.Report.{Reports, refusal_line, refusal_place, refusal_cause, text_of_walk_end, kind_name, differs_text, unknown_text, stream_text, ok_line, checked_line, checked_legacy_line, saved_line, exercised_line, walked_line, relayed_line};
ghost use Rattle.mig_tool_report.specs.declared.outcome.Outcome.TheVariants as outcomes;
ghost use Rattle.mig_tool_report.specs.declared.outcome.Refusal.TheVariants as refusals;

use crate::status::Status;
use mig_bytes::{Sink, WriteFailed, put_all};
use mig_headers::{Cause, ImageCause, ImagePlace, Kind, LegacyCause, LegacyPlace, Place, Unsound};
use mig_headers_text::{
    put_cause, put_image_cause, put_image_place, put_legacy_cause, put_legacy_place, put_number,
    put_place, put_unsound,
};

/// The place and the cause of a refusal.
#[derive(Clone, Copy, Debug, PartialEq, Eq)]
pub enum Refusal {
    /// Of a stream.
    Stream(Place, Cause),
    /// Of a legacy stream.
    Legacy(LegacyPlace, LegacyCause),
    /// Of the image of a host.
    Image(ImagePlace, ImageCause),
    /// This line of a script, counted from 1, is the first that is none.
    BadLine(u64),
    /// A script has too many bytes.
    TooLong,
    /// A host can't be seen as a guest as it is at the pause.
    Pause(Unsound),
    /// A host can't be seen as a guest.
    Host(Unsound),
    /// An address means no frame.
    Walk(WalkEnd),
}

/// Why an address means no frame.
#[derive(Clone, Copy, Debug, PartialEq, Eq)]
pub enum WalkEnd {
    /// There is no vCPU with this id.
    NoVcpu(u64),
    /// Bits 63 to 47 of the address aren't all equal.
    NotCanonical,
    /// Its way ends at a table of this level, where the entry names nothing.
    Absent(u64),
    /// Its way ends at a frame that is no table of this level.
    NotTable(u64),
}

/// What a command came to: its status, and what its line says.
#[derive(Clone, Copy, Debug, PartialEq, Eq)]
pub enum Outcome {
    Done,
    Refused(Refusal),
    Usage,
    ReadFault,
    WriteFault,
    Memory,
}

/// What is said of an accepted stream.
#[derive(Clone, Copy, Debug, PartialEq, Eq)]
pub struct Summary {
    pub version: u64,
    pub kind: Kind,
    /// The frames of its guest.
    pub frames: u64,
    /// Its records, with END and the optional ones.
    pub records: u64,
    /// The entries behind a VERIFY record that differ from the frames before it; none where there is no such record.
    pub differs: Option<u64>,
}

/// What is said of an accepted stream that was checked, in which nothing was compared.
#[derive(Clone, Copy, Debug, PartialEq, Eq)]
pub struct CheckSummary {
    pub version: u64,
    pub kind: Kind,
    /// The frames of its guest.
    pub frames: u64,
    /// Its records, with END and the optional ones.
    pub records: u64,
    /// Whether it has a VERIFY record.
    pub verified: bool,
}

/// What is said of a host that was saved live.
#[derive(Clone, Copy, Debug, PartialEq, Eq)]
pub struct SaveSummary {
    /// The rounds before the pause.
    pub rounds: u64,
    /// The entries of all PAGE_DATA records.
    pub entries: u64,
}

/// What is said of the host of `exercise`, which was saved live.
#[derive(Clone, Copy, Debug, PartialEq, Eq)]
pub struct ExerciseSummary {
    /// The frames of its guest.
    pub frames: u64,
    /// The rounds before the pause.
    pub rounds: u64,
    /// The entries of all PAGE_DATA records.
    pub entries: u64,
    /// The bytes of the guest's canonical stream.
    pub canon: u64,
}

/// What is said of a stream that was passed on.
#[derive(Clone, Copy, Debug, PartialEq, Eq)]
pub struct RelaySummary {
    /// The image's records, with END and the optional ones.
    pub records: u64,
    /// The bytes that were written.
    pub bytes: u64,
}

/// What is said of an address that means a frame.
#[derive(Clone, Copy, Debug, PartialEq, Eq)]
pub struct WalkSummary {
    /// The frame: of a stream's guest its PFN, of a host its machine frame.
    pub frame: u64,
    /// The number of its type.
    pub kind: u64,
}

/// The status of an outcome.
fn status(outcome: Outcome) -> Status
    ensures { result ≡ status_of outcome }
{
    match outcome {
        Outcome::Done => Status::Done,
        Outcome::Refused(_) => Status::Refused,
        Outcome::Usage => Status::Usage,
        Outcome::ReadFault => Status::ReadFault,
        Outcome::WriteFault => Status::WriteFault,
        Outcome::Memory => Status::Memory,
    }
}

/// Puts a text and a number behind it.
#[tactic(auto, using(mig_bytes::proofs::Texts::puts_then, mig_bytes::proofs::Texts::puts_part))]
fn put_field<R: Sink>(report: &mut R, text: &[u8], number: u64) -> Result<(), WriteFailed>
    ensures bytes { Puts (text.now ++ decimal number) (R.written report.old) (R.written report.new) result }
    ensures cause { FaultHasCause (R.faults report.old) (R.faults report.new) result }
{
    put_all(report, text)?;
    put_number(report, number)
}

/// Puts why an address means no frame.
fn put_walk_end<R: Sink>(report: &mut R, end: WalkEnd) -> Result<(), WriteFailed>
    ensures bytes { Puts (text_of_walk_end end) (R.written report.old) (R.written report.new) result }
    ensures cause { FaultHasCause (R.faults report.old) (R.faults report.new) result }
{
    match end {
        WalkEnd::NoVcpu(id) => put_field(report, b"1 NoVcpu ", id),
        WalkEnd::NotCanonical => put_all(report, b"2 NotCanonical"),
        WalkEnd::Absent(level) => put_field(report, b"3 Absent ", level),
        WalkEnd::NotTable(level) => put_field(report, b"4 NotTable ", level),
    }
}

/// Puts the place of a refusal.
fn put_refusal_place<R: Sink>(report: &mut R, refusal: Refusal) -> Result<(), WriteFailed>
    ensures bytes { Puts (refusal_place refusal) (R.written report.old) (R.written report.new) result }
    ensures cause { FaultHasCause (R.faults report.old) (R.faults report.new) result }
{
    match refusal {
        Refusal::Stream(place, _) => put_place(report, place),
        Refusal::Legacy(place, _) => put_legacy_place(report, place),
        Refusal::Image(place, _) => put_image_place(report, place),
        Refusal::BadLine(line) => put_field(report, b"Script ", line),
        Refusal::TooLong => put_all(report, b"Script"),
        Refusal::Pause(_) => put_all(report, b"Pause"),
        Refusal::Host(_) => put_all(report, b"Host"),
        Refusal::Walk(_) => put_all(report, b"Walk"),
    }
}

/// Puts the cause of a refusal.
fn put_refusal_cause<R: Sink>(report: &mut R, refusal: Refusal) -> Result<(), WriteFailed>
    ensures bytes { Puts (refusal_cause refusal) (R.written report.old) (R.written report.new) result }
    ensures cause { FaultHasCause (R.faults report.old) (R.faults report.new) result }
{
    match refusal {
        Refusal::Stream(_, cause) => put_cause(report, cause),
        Refusal::Legacy(_, cause) => put_legacy_cause(report, cause),
        Refusal::Image(_, cause) => put_image_cause(report, cause),
        Refusal::BadLine(_) => put_all(report, b"1 BadLine"),
        Refusal::TooLong => put_all(report, b"2 TooLong"),
        Refusal::Pause(unsound) | Refusal::Host(unsound) => put_unsound(report, unsound),
        Refusal::Walk(end) => put_walk_end(report, end),
    }
}

/// Puts the line of a refusal on the report.
fn put_refusal<R: Sink>(report: &mut R, refusal: Refusal) -> Result<(), WriteFailed>
    ensures bytes { Puts (refusal_line refusal) (R.written report.old) (R.written report.new) result }
    ensures cause { FaultHasCause (R.faults report.old) (R.faults report.new) result }
{
    put_all(report, b"refused: ")?;
    put_refusal_place(report, refusal)?;
    put_all(report, b": ")?;
    put_refusal_cause(report, refusal)?;
    put_all(report, b"\n")
}

/// Puts the line of an outcome on the report. It takes no memory. After `WriteFailed` some first bytes are appended, but
/// not all.
pub fn put_line<R: Sink>(report: &mut R, outcome: Outcome) -> Result<(), WriteFailed>
    ensures bytes { Puts (line_of outcome) (R.written report.old) (R.written report.new) result }
    ensures cause { FaultHasCause (R.faults report.old) (R.faults report.new) result }
{
    match outcome {
        Outcome::Done => put_all(report, b""),
        Outcome::Refused(refusal) => put_refusal(report, refusal),
        Outcome::Usage => put_all(
            report,
            b"usage: restore [BASE] | verify | normalise | convert | save | exercise SEED FRAMES | walk VCPU ADDRESS | walkimage VCPU ADDRESS | relay | show\n",
        ),
        Outcome::ReadFault => put_all(report, b"fault: read\n"),
        Outcome::WriteFault => put_all(report, b"fault: write\n"),
        Outcome::Memory => put_all(report, b"fault: memory\n"),
    }
}

/// Puts the line of an outcome on the report, and answers its status: a report that fails changes none.
pub fn finish<R: Sink>(report: &mut R, outcome: Outcome) -> Status
    ensures status { result ≡ status_of outcome }
    ensures line { Reports (line_of outcome) (R.written report.old) (R.written report.new) (R.faults report.old) (R.faults report.new) }
    ensures quiet { outcome ≡ outcomes.Done → R.faults report.new ≡ R.faults report.old }
    ensures later { R.faults report.old ≤ R.faults report.new }
{
    let _ = put_line(report, outcome);
    status(outcome)
}

/// Puts the name of a kind of guest.
fn put_kind<R: Sink>(report: &mut R, kind: Kind) -> Result<(), WriteFailed>
    ensures bytes { Puts (kind_name kind) (R.written report.old) (R.written report.new) result }
    ensures cause { FaultHasCause (R.faults report.old) (R.faults report.new) result }
{
    match kind {
        Kind::Pv => put_all(report, b"pv"),
        Kind::Hvm => put_all(report, b"hvm"),
    }
}

/// Puts how many entries behind a VERIFY differ, where there is one.
fn put_differs<R: Sink>(report: &mut R, differs: Option<u64>) -> Result<(), WriteFailed>
    ensures bytes { Puts (differs_text differs) (R.written report.old) (R.written report.new) result }
    ensures cause { FaultHasCause (R.faults report.old) (R.faults report.new) result }
{
    match differs {
        Some(count) => put_field(report, b" differs ", count),
        None => put_all(report, b""),
    }
}

/// Puts that a stream has a VERIFY, and nothing was compared behind it, where it is so.
fn put_unknown<R: Sink>(report: &mut R, verified: bool) -> Result<(), WriteFailed>
    ensures bytes { Puts (unknown_text verified) (R.written report.old) (R.written report.new) result }
    ensures cause { FaultHasCause (R.faults report.old) (R.faults report.new) result }
{
    if verified {
        put_all(report, b" differs unknown")
    } else {
        put_all(report, b"")
    }
}

/// Puts what is said of each accepted stream.
fn put_stream<R: Sink>(
    report: &mut R,
    version: u64,
    kind: Kind,
    frames: u64,
    records: u64,
) -> Result<(), WriteFailed>
    ensures bytes { Puts (stream_text version kind frames records) (R.written report.old) (R.written report.new) result }
    ensures cause { FaultHasCause (R.faults report.old) (R.faults report.new) result }
{
    put_field(report, b"ok version ", version)?;
    put_all(report, b" kind ")?;
    put_kind(report, kind)?;
    put_field(report, b" frames ", frames)?;
    put_field(report, b" records ", records)
}

/// Puts what an accepted stream is on the report. After `WriteFailed` some first bytes are appended, but not all.
pub fn put_ok<R: Sink>(report: &mut R, summary: Summary) -> Result<(), WriteFailed>
    ensures bytes { Puts (ok_line summary) (R.written report.old) (R.written report.new) result }
    ensures cause { FaultHasCause (R.faults report.old) (R.faults report.new) result }
{
    put_stream(
        report,
        summary.version,
        summary.kind,
        summary.frames,
        summary.records,
    )?;
    put_differs(report, summary.differs)?;
    put_all(report, b"\n")
}

/// Puts what an accepted stream is that was checked on the report. After `WriteFailed` some first bytes are appended, but
/// not all.
pub fn put_checked<R: Sink>(report: &mut R, summary: CheckSummary) -> Result<(), WriteFailed>
    ensures bytes { Puts (checked_line summary) (R.written report.old) (R.written report.new) result }
    ensures cause { FaultHasCause (R.faults report.old) (R.faults report.new) result }
{
    put_stream(
        report,
        summary.version,
        summary.kind,
        summary.frames,
        summary.records,
    )?;
    put_unknown(report, summary.verified)?;
    put_all(report, b"\n")
}

/// Puts how many frames the guest of a legacy stream has on the report. After `WriteFailed` some first bytes are appended,
/// but not all.
pub fn put_checked_legacy<R: Sink>(report: &mut R, frames: u64) -> Result<(), WriteFailed>
    ensures bytes { Puts (checked_legacy_line frames) (R.written report.old) (R.written report.new) result }
    ensures cause { FaultHasCause (R.faults report.old) (R.faults report.new) result }
{
    put_field(report, b"ok legacy frames ", frames)?;
    put_all(report, b"\n")
}

/// Puts a line of two fields.
#[tactic(auto, using(mig_bytes::proofs::Texts::puts_then, mig_bytes::proofs::Texts::puts_part))]
fn put_two_fields<R: Sink>(
    report: &mut R,
    first: &[u8],
    one: u64,
    second: &[u8],
    two: u64,
) -> Result<(), WriteFailed>
    ensures bytes { Puts ((first.now ++ decimal one) ++ ((second.now ++ decimal two) ++ codes "\n")) (R.written report.old) (R.written report.new) result }
    ensures cause { FaultHasCause (R.faults report.old) (R.faults report.new) result }
{
    put_field(report, first, one)?;
    put_field(report, second, two)?;
    put_all(report, b"\n")
}

/// Puts how a host was saved on the report. After `WriteFailed` some first bytes are appended, but not all.
pub fn put_saved<R: Sink>(report: &mut R, summary: SaveSummary) -> Result<(), WriteFailed>
    ensures bytes { Puts (saved_line summary) (R.written report.old) (R.written report.new) result }
    ensures cause { FaultHasCause (R.faults report.old) (R.faults report.new) result }
{
    put_two_fields(
        report,
        b"ok rounds ",
        summary.rounds,
        b" entries ",
        summary.entries,
    )
}

/// Puts how the host of `exercise` was saved on the report. After `WriteFailed` some first bytes are appended, but not all.
pub fn put_exercised<R: Sink>(report: &mut R, summary: ExerciseSummary) -> Result<(), WriteFailed>
    ensures bytes { Puts (exercised_line summary) (R.written report.old) (R.written report.new) result }
    ensures cause { FaultHasCause (R.faults report.old) (R.faults report.new) result }
{
    put_field(report, b"ok frames ", summary.frames)?;
    put_field(report, b" rounds ", summary.rounds)?;
    put_field(report, b" entries ", summary.entries)?;
    put_field(report, b" canon ", summary.canon)?;
    put_all(report, b"\n")
}

/// Puts which frame an address means on the report. After `WriteFailed` some first bytes are appended, but not all.
pub fn put_walked<R: Sink>(report: &mut R, summary: WalkSummary) -> Result<(), WriteFailed>
    ensures bytes { Puts (walked_line summary) (R.written report.old) (R.written report.new) result }
    ensures cause { FaultHasCause (R.faults report.old) (R.faults report.new) result }
{
    put_two_fields(report, b"ok frame ", summary.frame, b" type ", summary.kind)
}

/// Puts how many records and bytes of a stream were passed on on the report. After `WriteFailed` some first bytes are
/// appended, but not all.
pub fn put_relayed<R: Sink>(report: &mut R, summary: RelaySummary) -> Result<(), WriteFailed>
    ensures bytes { Puts (relayed_line summary) (R.written report.old) (R.written report.new) result }
    ensures cause { FaultHasCause (R.faults report.old) (R.faults report.new) result }
{
    put_two_fields(
        report,
        b"ok records ",
        summary.records,
        b" bytes ",
        summary.bytes,
    )
}
