ghost use Rattle.std.specs.Prelude.{◌≡◌, ◌⊎◌, ℕ, List, IfSome, Ok, Some};
ghost use Rattle.mig_tool_guest.specs.Common.{Appends, AppendsPart, AcceptedStream, CarriedOut, ComesTo, InputRises, IsPartCopied, OutputRises, canon_any, effects, input_effect, sink_effect, status_of, unreached, AreBytes, AgreesWithJudging, with_frames, failed_in, left_in, IsFormed, Cause, Place, IsPlacedStream, stream_at, frames_in_file, AcceptedLegacy};
ghost use Rattle.mig_tool_guest.specs.Fronts.{PartWritten};
ghost use Rattle.mig_tool_guest.specs.Promises.{convert_file_promise, normalise_file_promise, verify_promise};
ghost use Rattle.mig_tool_report.specs.declared.outcome.Outcome.TheVariants as outcomes;

use crate::blanked::write_taken_pv;
use crate::commands::{tell_summary, unconverted, unread};
use crate::comparing::compared_file;
use mig_bytes::Sink;
use mig_file::{FileSource, PageFile};
use mig_headers::Kind;
use mig_legacy::place_legacy;
use mig_libxl::{place_any, write_any_with};
use mig_placed::PlacedFrames;
use mig_placing::PlacedGuest;
use mig_records_pages::{CopyFailed, page_buffer};
use mig_tool_report::{Outcome, Status, finish};
use std::alloc::Global;

/// Says on the report what the stream in a file is, as `verify` does. It keeps no page but those of page tables.
pub fn verify_file<P: PageFile, R: Sink>(
    alloc: Global,
    input: &mut FileSource<'_, P>,
    report: &mut R,
) -> Status
    ensures { CarriedOut verify_promise (effects (input_effect (left_in P.bytes) failed_in input.old input.new)
        unreached (sink_effect R.written R.faults report.old report.new)) result }
{
    let said = compared_file(alloc, input);
    tell_summary(report, said)
}

/// Writes the canonical stream of a guest whose pages stand in a file. A page that can't be read again counts with the
/// reads of the input that failed.
fn write_placed<P: PageFile, K: Sink>(
    placed: &PlacedGuest<'_, P>,
    input: &mut FileSource<'_, P>,
    out: &mut K,
) -> Outcome
    requires formed { IsFormed placed.now.outline }
    ensures done { result ≡ outcomes.Done → (all : List ℕ) → P.bytes placed.now.file.now ≡ Some all → Appends (K.written out.old) (K.written out.new) (canon_any (with_frames placed.now.outline (frames_in_file (Some all) placed.now.places))) }
    ensures part { (result ≡ outcomes.WriteFault) ⊎ (result ≡ outcomes.ReadFault) → (all : List ℕ) → P.bytes placed.now.file.now ≡ Some all → AppendsPart (K.written out.old) (K.written out.new) (canon_any (with_frames placed.now.outline (frames_in_file (Some all) placed.now.places))) }
    ensures answers { (result ≡ outcomes.Done) ⊎ ((result ≡ outcomes.WriteFault) ⊎ (result ≡ outcomes.ReadFault)) }
    ensures left { left_in P.bytes input.new ≡ left_in P.bytes input.old }
    ensures read { InputRises (status_of result) (failed_in input.old) (failed_in input.new) }
    ensures write { OutputRises (status_of result) (K.faults out.old) (K.faults out.new) }
{
    let frames = PlacedFrames::new(&placed.places, placed.file);
    let mut buffer = page_buffer();
    match write_any_with(out, &placed.outline, &frames, &mut buffer) {
        Ok(()) => Outcome::Done,
        Err(CopyFailed::Write) => Outcome::WriteFault,
        Err(CopyFailed::Read) => {
            input.note_fault();
            Outcome::ReadFault
        }
    }
}

/// Writes the canonical stream of a guest that was taken of a file up to here, with its pages in the file.
fn write_taken<'a, P: PageFile, K: Sink>(
    alloc: Global,
    placed: &mut PlacedGuest<'a, P>,
    taken: FileSource<'a, P>,
    input: &mut FileSource<'a, P>,
    out: &mut K,
) -> Outcome
    requires read { AgreesWithJudging {C = Place × Cause} (IsPlacedStream P.bytes) (left_in P.bytes input.old) (left_in P.bytes taken) stream_at (Ok placed.old) }
    requires formed { IsFormed placed.old.outline }
    requires bytes { IfSome (P.bytes input.old.file.now) AreBytes }
    requires faults { failed_in taken ≡ failed_in input.old }
    ensures came { ComesTo normalise_file_promise (effects (input_effect (left_in P.bytes) failed_in input.old input.new) (sink_effect K.written K.faults out.old out.new) unreached) result }
    ensures part { result ≡ outcomes.ReadFault → (out.new ≡ out.old) ⊎ IsPartCopied (PartWritten AcceptedStream canon_any) (effects (input_effect (left_in P.bytes) failed_in input.old input.new) (sink_effect K.written K.faults out.old out.new) unreached) }
{
    match placed.outline.kind() {
        Kind::Pv => write_taken_pv(alloc, placed, taken, input, out),
        Kind::Hvm => {
            *input = taken;
            write_placed(placed, input, out)
        }
    }
}

/// Reads a stream in a file, and writes it in its canonical form. It keeps no page but those of page tables: each other one is
/// read again where it is written.
fn normalised_file<P: PageFile, K: Sink>(
    alloc: Global,
    input: &mut FileSource<'_, P>,
    out: &mut K,
) -> Outcome
    ensures came { ComesTo normalise_file_promise (effects (input_effect (left_in P.bytes) failed_in input.old input.new) (sink_effect K.written K.faults out.old out.new) unreached) result }
    ensures part { result ≡ outcomes.ReadFault → (out.new ≡ out.old) ⊎ IsPartCopied (PartWritten AcceptedStream canon_any) (effects (input_effect (left_in P.bytes) failed_in input.old input.new) (sink_effect K.written K.faults out.old out.new) unreached) }
{
    input.file().has_bytes();
    let mut taken = input.again();
    match place_any(alloc, &mut taken) {
        Ok(mut placed) => write_taken(alloc, &mut placed, taken, input, out),
        Err(answer) => {
            *input = taken;
            unread(answer)
        }
    }
}

/// Reads a stream in a file, writes it in its canonical form, and puts the line of the status on the report, as `normalise`
/// does. Where a page can't be read again, a part of the stream is written.
pub fn normalise_file<P: PageFile, K: Sink, R: Sink>(
    alloc: Global,
    input: &mut FileSource<'_, P>,
    out: &mut K,
    report: &mut R,
) -> Status
    ensures { CarriedOut normalise_file_promise (effects (input_effect (left_in P.bytes) failed_in input.old input.new)
        (sink_effect K.written K.faults out.old out.new) (sink_effect R.written R.faults report.old report.new)) result }
{
    let outcome = normalised_file(alloc, input, out);
    finish(report, outcome)
}

/// Reads a legacy stream in a file, and writes the canonical stream of its guest. It keeps no page: each is read again where
/// it is written.
fn converted_file<P: PageFile, K: Sink>(
    alloc: Global,
    input: &mut FileSource<'_, P>,
    out: &mut K,
) -> Outcome
    ensures came { ComesTo convert_file_promise (effects (input_effect (left_in P.bytes) failed_in input.old input.new) (sink_effect K.written K.faults out.old out.new) unreached) result }
    ensures part { result ≡ outcomes.ReadFault → (out.new ≡ out.old) ⊎ IsPartCopied (PartWritten AcceptedLegacy canon_any) (effects (input_effect (left_in P.bytes) failed_in input.old input.new) (sink_effect K.written K.faults out.old out.new) unreached) }
{
    input.file().has_bytes();
    match place_legacy(alloc, input) {
        Ok(placed) => write_placed(&placed, input, out),
        Err(answer) => unconverted(answer),
    }
}

/// Reads a legacy stream in a file, writes the canonical stream of its guest, and puts the line of the status on the report,
/// as `convert` does. Where a page can't be read again, a part of the stream is written.
pub fn convert_file<P: PageFile, K: Sink, R: Sink>(
    alloc: Global,
    input: &mut FileSource<'_, P>,
    out: &mut K,
    report: &mut R,
) -> Status
    ensures { CarriedOut convert_file_promise (effects (input_effect (left_in P.bytes) failed_in input.old input.new)
        (sink_effect K.written K.faults out.old out.new) (sink_effect R.written R.faults report.old report.new)) result }
{
    let outcome = converted_file(alloc, input, out);
    finish(report, outcome)
}
