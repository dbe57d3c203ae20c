ghost use Rattle.std.specs.Prelude.{◌≡◌, ◌⊎◌, ℕ, List, IfSome, Ok, Some};
ghost use Rattle.mig_blanked.specs.Behind.{guest_behind};
ghost use Rattle.mig_headers.specs.declared.kind.Kind.TheVariants.{Pv};
ghost use Rattle.mig_tool_guest.specs.Common.{Appends, AppendsPart, AcceptedStream, ComesTo, InputRises, IsPartCopied, OutputRises, canon_any, effects, input_effect, sink_effect, status_of, unreached, AreBytes, AgreesWithJudging, failed_in, left_in, IsFormed, Cause, Place, IsPlacedStream, stream_at, frames_in_file};
ghost use Rattle.mig_tool_guest.specs.Fronts.{PartWritten};
ghost use Rattle.mig_tool_guest.specs.Promises.{normalise_file_promise};
ghost use Rattle.mig_tool_report.specs.declared.outcome.Outcome.TheVariants as outcomes;

use mig_blanked::{PagesByNumber, blank_outline};
use mig_bytes::Sink;
use mig_file::{FileSource, PageFile};
use mig_libxl::write_any_with;
use mig_pagestore_index::Index;
use mig_placing::PlacedGuest;
use mig_records_pages::{CopyFailed, page_buffer};
use mig_tool_report::Outcome;
use std::alloc::Global;

/// Writes the canonical stream of a PV guest whose pages stand in a file, and whose outline is in its blank form. A page that
/// can't be read again counts with the reads of the input that failed.
fn write_blanked<P: PageFile, K: Sink>(
    placed: &PlacedGuest<'_, P>,
    marks: &Index,
    input: &mut FileSource<'_, P>,
    out: &mut K,
) -> Outcome
    requires formed { IsFormed placed.now.outline }
    ensures done { result ≡ outcomes.Done → (all : List ℕ) → P.bytes placed.now.file.now ≡ Some all → Appends (K.written out.old) (K.written out.new) (canon_any (guest_behind placed.now.outline marks.now.values (frames_in_file (Some all) placed.now.places))) }
    ensures part { (result ≡ outcomes.WriteFault) ⊎ (result ≡ outcomes.ReadFault) → (all : List ℕ) → P.bytes placed.now.file.now ≡ Some all → AppendsPart (K.written out.old) (K.written out.new) (canon_any (guest_behind placed.now.outline marks.now.values (frames_in_file (Some all) placed.now.places))) }
    ensures answers { (result ≡ outcomes.Done) ⊎ ((result ≡ outcomes.WriteFault) ⊎ (result ≡ outcomes.ReadFault)) }
    ensures left { left_in P.bytes input.new ≡ left_in P.bytes input.old }
    ensures read { InputRises (status_of result) (failed_in input.old) (failed_in input.new) }
    ensures write { OutputRises (status_of result) (K.faults out.old) (K.faults out.new) }
{
    let frames = PagesByNumber::new(&placed.outline, marks, &placed.places, placed.file);
    let mut buffer = page_buffer();
    match write_any_with(out, &placed.outline, &frames, &mut buffer) {
        Ok(()) => Outcome::Done,
        Err(CopyFailed::Write) => Outcome::WriteFault,
        Err(CopyFailed::Read) => {
            input.note_fault();
            Outcome::ReadFault
        }
    }
}

/// Writes the canonical stream of a PV guest that was taken of a file up to here, with its pages in the file. Page tables are
/// written as they were judged, and not read again.
pub(crate) fn write_taken_pv<'a, P: PageFile, K: Sink>(
    alloc: Global,
    placed: &mut PlacedGuest<'a, P>,
    taken: FileSource<'a, P>,
    input: &mut FileSource<'a, P>,
    out: &mut K,
) -> Outcome
    requires read { AgreesWithJudging {C = Place × Cause} (IsPlacedStream P.bytes) (left_in P.bytes input.old) (left_in P.bytes taken) stream_at (Ok placed.old) }
    requires kind { placed.old.outline.kind ≡ Pv }
    requires formed { IsFormed placed.old.outline }
    requires bytes { IfSome (P.bytes input.old.file.now) AreBytes }
    requires faults { failed_in taken ≡ failed_in input.old }
    ensures came { ComesTo normalise_file_promise (effects (input_effect (left_in P.bytes) failed_in input.old input.new) (sink_effect K.written K.faults out.old out.new) unreached) result }
    ensures part { result ≡ outcomes.ReadFault → (out.new ≡ out.old) ⊎ IsPartCopied (PartWritten AcceptedStream canon_any) (effects (input_effect (left_in P.bytes) failed_in input.old input.new) (sink_effect K.written K.faults out.old out.new) unreached) }
{
    *input = taken;
    match blank_outline(alloc, &mut placed.outline) {
        Ok(marks) => write_blanked(placed, &marks, input, out),
        Err(_) => Outcome::Memory,
    }
}
