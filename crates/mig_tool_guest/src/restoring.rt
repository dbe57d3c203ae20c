ghost use Rattle.std.specs.Prelude.{◌≡◌, ◌⊎◌, ℕ, List, IfSome, Ok, Some};
ghost use Rattle.mig_headers.specs.declared.kind.Kind.TheVariants.{Hvm};
ghost use Rattle.mig_host.specs.Hosted.{CanBeHosted};
ghost use Rattle.mig_tool_guest.specs.Common.{Appends, AppendsPart, AcceptedStream, CarriedOut, ComesTo, InputRises, IsPartCopied, OutputRises, effects, input_effect, sink_effect, status_of, unreached, AreBytes, AgreesWithJudging, with_frames, failed_in, left_in, IsFormed, Cause, Place, IsPlacedStream, stream_at, frames_in_file, IsBase};
ghost use Rattle.mig_tool_guest.specs.Fronts.{PartWritten, restored_text};
ghost use Rattle.mig_tool_guest.specs.Promises.{restore_file_promise};
ghost use Rattle.mig_tool_report.specs.declared.outcome.Outcome.TheVariants as outcomes;

use crate::commands::unread;
use crate::localised::restore_taken_pv;
use mig_bytes::Sink;
use mig_file::{FileSource, PageFile};
use mig_headers::Kind;
use mig_image::write_hosted;
use mig_libxl::place_any;
use mig_placed::PlacedFrames;
use mig_placing::PlacedGuest;
use mig_records_pages::CopyFailed;
use mig_tool_report::{Outcome, Status, finish};
use std::alloc::Global;

/// Writes the image of an HVM guest whose pages stand in a file, with machine frames counted up from the base. A page that
/// can't be read again counts with the reads of the input that failed.
fn write_placed_image<P: PageFile, K: Sink>(
    base: u64,
    placed: &PlacedGuest<'_, P>,
    input: &mut FileSource<'_, P>,
    out: &mut K,
) -> Outcome
    requires kind { placed.now.outline.kind ≡ Hvm }
    requires formed { IsFormed placed.now.outline }
    ensures done { result ≡ outcomes.Done → (all : List ℕ) → P.bytes placed.now.file.now ≡ Some all → CanBeHosted base (with_frames placed.now.outline (frames_in_file (Some all) placed.now.places))
        → Appends (K.written out.old) (K.written out.new) (restored_text base (with_frames placed.now.outline (frames_in_file (Some all) placed.now.places))) }
    ensures part { (result ≡ outcomes.WriteFault) ⊎ (result ≡ outcomes.ReadFault) → (all : List ℕ) → P.bytes placed.now.file.now ≡ Some all → CanBeHosted base (with_frames placed.now.outline (frames_in_file (Some all) placed.now.places))
        → AppendsPart (K.written out.old) (K.written out.new) (restored_text base (with_frames placed.now.outline (frames_in_file (Some all) placed.now.places))) }
    ensures answers { (result ≡ outcomes.Done) ⊎ ((result ≡ outcomes.WriteFault) ⊎ (result ≡ outcomes.ReadFault)) }
    ensures left { left_in P.bytes input.new ≡ left_in P.bytes input.old }
    ensures read { InputRises (status_of result) (failed_in input.old) (failed_in input.new) }
    ensures write { OutputRises (status_of result) (K.faults out.old) (K.faults out.new) }
{
    let frames = PlacedFrames::new(&placed.places, placed.file);
    match write_hosted(out, &placed.outline, &frames, base) {
        Ok(()) => Outcome::Done,
        Err(CopyFailed::Write) => Outcome::WriteFault,
        Err(CopyFailed::Read) => {
            input.note_fault();
            Outcome::ReadFault
        }
    }
}

/// Writes the image of a guest that was taken of a file up to here, with its pages in the file.
fn restored_taken<'a, P: PageFile, K: Sink>(
    alloc: Global,
    base: u64,
    placed: &mut PlacedGuest<'a, P>,
    taken: FileSource<'a, P>,
    input: &mut FileSource<'a, P>,
    out: &mut K,
) -> Outcome
    requires base { IsBase base }
    requires read { AgreesWithJudging {C = Place × Cause} (IsPlacedStream P.bytes) (left_in P.bytes input.old) (left_in P.bytes taken) stream_at (Ok placed.old) }
    requires formed { IsFormed placed.old.outline }
    requires bytes { IfSome (P.bytes input.old.file.now) AreBytes }
    requires faults { failed_in taken ≡ failed_in input.old }
    ensures came { ComesTo (restore_file_promise base) (effects (input_effect (left_in P.bytes) failed_in input.old input.new) (sink_effect K.written K.faults out.old out.new) unreached) result }
    ensures part { result ≡ outcomes.ReadFault → (out.new ≡ out.old) ⊎ IsPartCopied (PartWritten AcceptedStream (restored_text base)) (effects (input_effect (left_in P.bytes) failed_in input.old input.new) (sink_effect K.written K.faults out.old out.new) unreached) }
{
    match placed.outline.kind() {
        Kind::Pv => restore_taken_pv(alloc, base, placed, taken, input, out),
        Kind::Hvm => {
            *input = taken;
            write_placed_image(base, placed, input, out)
        }
    }
}

/// Reads a stream in a file, and writes the image of its guest, with machine frames counted up from the base. It keeps
/// page tables and no other page: each is read again where it is written.
fn restored_file<P: PageFile, K: Sink>(
    alloc: Global,
    base: u64,
    input: &mut FileSource<'_, P>,
    out: &mut K,
) -> Outcome
    requires { IsBase base }
    ensures came { ComesTo (restore_file_promise base) (effects (input_effect (left_in P.bytes) failed_in input.old input.new) (sink_effect K.written K.faults out.old out.new) unreached) result }
    ensures part { result ≡ outcomes.ReadFault → (out.new ≡ out.old) ⊎ IsPartCopied (PartWritten AcceptedStream (restored_text base)) (effects (input_effect (left_in P.bytes) failed_in input.old input.new) (sink_effect K.written K.faults out.old out.new) unreached) }
{
    input.file().has_bytes();
    let mut taken = input.again();
    match place_any(alloc, &mut taken) {
        Ok(mut placed) => restored_taken(alloc, base, &mut placed, taken, input, out),
        Err(answer) => {
            *input = taken;
            unread(answer)
        }
    }
}

/// Reads a stream in a file, writes the image of its guest, and puts the line of the status on the report, as `restore`
/// does. Where a page can't be read again, a part of the image is written.
pub fn restore_file<P: PageFile, K: Sink, R: Sink>(
    alloc: Global,
    base: u64,
    input: &mut FileSource<'_, P>,
    out: &mut K,
    report: &mut R,
) -> Status
    requires { IsBase base }
    ensures { CarriedOut (restore_file_promise base) (effects (input_effect (left_in P.bytes) failed_in input.old input.new)
        (sink_effect K.written K.faults out.old out.new) (sink_effect R.written R.faults report.old report.new)) result }
{
    let outcome = restored_file(alloc, base, input, out);
    finish(report, outcome)
}
