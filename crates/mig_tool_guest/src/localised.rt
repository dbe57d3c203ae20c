ghost use Rattle.std.specs.Prelude.{◌≡◌, ◌<◌, ◌⊎◌, ℕ, List, IfSome, Ok, Some};
ghost use Rattle.mig_headers.specs.declared.kind.Kind.TheVariants.{Pv};
ghost use Rattle.mig_host.specs.Hosted.{CanBeHosted, mfn_in};
ghost use Rattle.mig_host_view.specs.Localised.{localised};
ghost use Rattle.mig_image.specs.Behind.{HaveRoom};
ghost use Rattle.mig_localised.specs.Over.{guest_over};
ghost use Rattle.mig_pagetypes.specs.Limits.{top_limit};
ghost use Rattle.mig_tool_guest.specs.Common.{Appends, AppendsPart, AcceptedStream, ComesTo, GuestOf, InputRises, IsPartCopied, OutputRises, effects, input_effect, sink_effect, status_of, unreached, AreBytes, AgreesWithJudging, failed_in, left_in, IsFormed, Cause, Place, IsPlacedStream, stream_at, frames_in_file, IsBase};
ghost use Rattle.mig_tool_guest.specs.Fronts.{PartWritten, restored_text};
ghost use Rattle.mig_tool_guest.specs.Promises.{restore_file_promise};
ghost use Rattle.mig_tool_report.specs.declared.outcome.Outcome.TheVariants as outcomes;

use mig_bytes::Sink;
use mig_file::{FileSource, PageFile};
use mig_image::write_localised;
use mig_localised::{LocalisedFrames, localise_outline};
use mig_placing::PlacedGuest;
use mig_records_pages::CopyFailed;
use mig_tool_report::Outcome;
use std::alloc::Global;

/// Writes the image of a PV guest whose pages stand in a file, and whose outline is as it stands in the machine. A page that
/// can't be read again counts with the reads of the input that failed.
fn write_outline<P: PageFile, K: Sink>(
    base: u64,
    placed: &PlacedGuest<'_, P>,
    input: &mut FileSource<'_, P>,
    out: &mut K,
) -> Outcome
    requires top { placed.now.outline.top < top_limit }
    requires room { HaveRoom placed.now.outline.parts }
    ensures done { result ≡ outcomes.Done → (all : List ℕ) (meant : GuestOf) → P.bytes placed.now.file.now ≡ Some all → meant.kind ≡ Pv → CanBeHosted base meant
        → guest_over placed.now.outline (frames_in_file (Some all) placed.now.places) ≡ localised (mfn_in meant.frames base) meant → Appends (K.written out.old) (K.written out.new) (restored_text base meant) }
    ensures part { (result ≡ outcomes.WriteFault) ⊎ (result ≡ outcomes.ReadFault) → (all : List ℕ) (meant : GuestOf) → P.bytes placed.now.file.now ≡ Some all → meant.kind ≡ Pv → CanBeHosted base meant
        → guest_over placed.now.outline (frames_in_file (Some all) placed.now.places) ≡ localised (mfn_in meant.frames base) meant → AppendsPart (K.written out.old) (K.written out.new) (restored_text base meant) }
    ensures answers { (result ≡ outcomes.Done) ⊎ ((result ≡ outcomes.WriteFault) ⊎ (result ≡ outcomes.ReadFault)) }
    ensures left { left_in P.bytes input.new ≡ left_in P.bytes input.old }
    ensures read { InputRises (status_of result) (failed_in input.old) (failed_in input.new) }
    ensures write { OutputRises (status_of result) (K.faults out.old) (K.faults out.new) }
{
    let frames = LocalisedFrames::new(&placed.outline, &placed.places, placed.file);
    match write_localised(out, &placed.outline, &frames, base) {
        Ok(()) => Outcome::Done,
        Err(CopyFailed::Write) => Outcome::WriteFault,
        Err(CopyFailed::Read) => {
            input.note_fault();
            Outcome::ReadFault
        }
    }
}

/// Writes the image of a PV guest that was taken of a file up to here, with its pages in the file. Page tables are written as
/// they were judged, and not read again. A base is in range for each guest that a stream is accepted with.
pub(crate) fn restore_taken_pv<'a, P: PageFile, K: Sink>(
    alloc: Global,
    base: u64,
    placed: &mut PlacedGuest<'a, P>,
    taken: FileSource<'a, P>,
    input: &mut FileSource<'a, P>,
    out: &mut K,
) -> Outcome
    requires base { IsBase base }
    requires read { AgreesWithJudging {C = Place × Cause} (IsPlacedStream P.bytes) (left_in P.bytes input.old) (left_in P.bytes taken) stream_at (Ok placed.old) }
    requires kind { placed.old.outline.kind ≡ Pv }
    requires formed { IsFormed placed.old.outline }
    requires bytes { IfSome (P.bytes input.old.file.now) AreBytes }
    requires faults { failed_in taken ≡ failed_in input.old }
    ensures came { ComesTo (restore_file_promise base) (effects (input_effect (left_in P.bytes) failed_in input.old input.new) (sink_effect K.written K.faults out.old out.new) unreached) result }
    ensures part { result ≡ outcomes.ReadFault → (out.new ≡ out.old) ⊎ IsPartCopied (PartWritten AcceptedStream (restored_text base)) (effects (input_effect (left_in P.bytes) failed_in input.old input.new) (sink_effect K.written K.faults out.old out.new) unreached) }
{
    *input = taken;
    match localise_outline(alloc, base, &mut placed.outline) {
        Ok(()) => write_outline(base, placed, input, out),
        Err(_) => Outcome::Memory,
    }
}
