ghost use Rattle.std.specs.Prelude.{◌≡◌, ◌≤◌, ℕ, IfOk, IfErr, OnOk};
ghost use Rattle.mig_tool_report.specs.declared.outcome.Refusal.TheVariants as refusals;
ghost use Rattle.mig_tool_report.specs.declared.status.Status.TheVariants as statuses;
ghost use Rattle.mig_tool_guest.specs.Common.{IsSound, Standing, in_host, IsWalked, IsUnwritten, InputRises, CarriedOut, effects, input_effect, sink_effect, unreached, GuestOf, IsFormed, failed_in, in_stream, left_in};
ghost use Rattle.mig_pvtables.specs.Blank.{blank};
ghost use Rattle.mig_pvtables.specs.Whole.{IsWhole};
ghost use Rattle.mig_walk.specs.Outlined.{StandForGuest};
ghost use Rattle.mig_tool_guest.specs.Addresses.{MeansFrame};
ghost use Rattle.mig_tool_guest.specs.AddressSteps.{EndsInHost, EndsOrStarves, EndsWalk, FindsInImage, FindsInStream, TellsFound, status_found};
ghost use Rattle.mig_tool_guest.specs.Outcomes.{outcome_of};
ghost use Rattle.mig_tool_guest.specs.Promises.{walk_image_promise, walk_promise};

use crate::commands::unread;
use mig_blanked::blank_outline;
use mig_bytes::{Sink, Source};
use mig_file::{FileSource, PageFile};
use mig_image::{Host, ImageAnswer, SoundAnswer, read_host};
use mig_libxl::{place_any, read_any};
use mig_placing::PlacedGuest;
use mig_tool_report::{Outcome, Refusal, Status, WalkEnd, WalkSummary, finish, put_walked};
use mig_walk::{Walked, walk_guest, walk_host, walk_outlined};
use std::alloc::Global;

/// Hosts of any width are looked into.
const MOST_WIDTH: u64 = 1 << 52;

/// What an address comes to: the frame that it means, or why it means none.
fn told(vcpu: u32, walked: Walked) -> Result<WalkSummary, Outcome>
    ensures frame { (s : Standing) (at : ℕ) → IsWalked s vcpu at walked → IfOk result (MeansFrame s vcpu at) }
    ensures none { (s : Standing) (at : ℕ) → IsWalked s vcpu at walked → IfErr result (EndsWalk s vcpu at) }
    ensures unfound { IfErr result IsUnwritten }
    ensures quiet { (n : ℕ) → InputRises (status_found result) n n }
{
    let end = match walked {
        Walked::Frame { frame, kind } => {
            return Ok(WalkSummary {
                frame,
                kind: u64::from(kind.nibble()),
            });
        }
        Walked::NoVcpu => WalkEnd::NoVcpu(u64::from(vcpu)),
        Walked::NotCanonical => WalkEnd::NotCanonical,
        Walked::Absent(level) => WalkEnd::Absent(u64::from(level)),
        Walked::NotTable(level) => WalkEnd::NotTable(u64::from(level)),
    };
    Err(Outcome::Refused(Refusal::Walk(end)))
}

/// The outcome where no image is read.
fn no_image(answer: ImageAnswer) -> Outcome
    ensures { result ≡ outcome_of refusals.Image answer }
{
    match answer {
        ImageAnswer::Refused(place, cause) => Outcome::Refused(Refusal::Image(place, cause)),
        ImageAnswer::ReadFault => Outcome::ReadFault,
        ImageAnswer::Memory => Outcome::Memory,
    }
}

/// Reads a stream, and finds the frame that an address means to a vCPU of its guest.
fn frame_in_stream<S: Source>(
    alloc: Global,
    vcpu: u32,
    address: u64,
    input: &mut S,
) -> Result<WalkSummary, Outcome>
    ensures found { FindsInStream vcpu address (S.left input.old) (S.left input.new) result }
    ensures unfound { IfErr result IsUnwritten }
    ensures read { InputRises (status_found result) (S.faults input.old) (S.faults input.new) }
{
    match read_any(alloc, input) {
        Ok(reading) => told(vcpu, walk_guest(&reading.guest, vcpu, address)),
        Err(answer) => Err(unread(answer)),
    }
}

/// Finds the frame that an address means to a vCPU of a guest whose pages stay in a file. Its page tables are those that were
/// judged: nothing is read again.
fn frame_in_placed<P: PageFile>(
    alloc: Global,
    vcpu: u32,
    address: u64,
    placed: &mut PlacedGuest<'_, P>,
) -> Result<WalkSummary, Outcome>
    requires formed { IsFormed placed.old.outline }
    ensures frame { (g : GuestOf) → StandForGuest (blank placed.old.outline) placed.old.places g → IsWhole g → IfOk result (MeansFrame (in_stream g) vcpu address) }
    ensures none { (g : GuestOf) → StandForGuest (blank placed.old.outline) placed.old.places g → IsWhole g → IfErr result (EndsOrStarves (in_stream g) vcpu address) }
    ensures unfound { IfErr result IsUnwritten }
    ensures quiet { (n : ℕ) → InputRises (status_found result) n n }
{
    match blank_outline(alloc, &mut placed.outline) {
        Ok(_) => told(
            vcpu,
            walk_outlined(&placed.outline, &placed.places, vcpu, address),
        ),
        Err(_) => Err(Outcome::Memory),
    }
}

/// Reads a stream in a file, and finds the frame that an address means to a vCPU of its guest. It keeps no page but those of
/// page tables.
fn frame_in_file<P: PageFile>(
    alloc: Global,
    vcpu: u32,
    address: u64,
    input: &mut FileSource<'_, P>,
) -> Result<WalkSummary, Outcome>
    ensures found { FindsInStream vcpu address (left_in P.bytes input.old) (left_in P.bytes input.new) result }
    ensures unfound { IfErr result IsUnwritten }
    ensures read { InputRises (status_found result) (failed_in input.old) (failed_in input.new) }
{
    input.file().has_bytes();
    match place_any(alloc, input) {
        Ok(mut placed) => frame_in_placed(alloc, vcpu, address, &mut placed),
        Err(answer) => Err(unread(answer)),
    }
}

/// Finds the machine frame that an address means to a vCPU of a host, if that is sound.
fn frame_there(alloc: Global, vcpu: u32, address: u64, host: &Host) -> Result<WalkSummary, Outcome>
    ensures sound { OnOk result (IsSound host.now.host) }
    ensures frame { IfOk result (MeansFrame (in_host host.now.host) vcpu address) }
    ensures none { IfErr result (EndsInHost host.now.host vcpu address) }
{
    match host.sound(alloc) {
        Ok(()) => told(vcpu, walk_host(host, vcpu, address)),
        Err(SoundAnswer::Unsound(unsound)) => Err(Outcome::Refused(Refusal::Host(unsound))),
        Err(SoundAnswer::Memory) => Err(Outcome::Memory),
    }
}

/// Reads the image of a host, leaves unread what follows it, and finds the machine frame that an address means to a vCPU there.
fn frame_in_image<S: Source>(
    alloc: Global,
    vcpu: u32,
    address: u64,
    input: &mut S,
) -> Result<WalkSummary, Outcome>
    ensures found { FindsInImage vcpu address (S.left input.old) (S.left input.new) result }
    ensures unfound { IfErr result IsUnwritten }
    ensures read { InputRises (status_found result) (S.faults input.old) (S.faults input.new) }
{
    match read_host(alloc, input, MOST_WIDTH) {
        Ok(host) => frame_there(alloc, vcpu, address, &host),
        Err(answer) => Err(no_image(answer)),
    }
}

/// Says on the report what was found.
fn report_found<R: Sink>(report: &mut R, found: Result<WalkSummary, Outcome>) -> Status
    requires { IfErr found IsUnwritten }
    ensures told { TellsFound found result (R.written report.old) (R.written report.new) (R.faults report.old) (R.faults report.new) }
    ensures quiet { result ≡ statuses.Done → R.faults report.new ≡ R.faults report.old }
    ensures later { R.faults report.old ≤ R.faults report.new }
{
    match found {
        Ok(summary) => match put_walked(report, summary) {
            Ok(()) => Status::Done,
            Err(_) => Status::WriteFault,
        },
        Err(outcome) => finish(report, outcome),
    }
}

/// Reads a stream, and says on the report which frame an address means to a vCPU of its guest.
pub fn walk<S: Source, R: Sink>(
    alloc: Global,
    vcpu: u32,
    address: u64,
    input: &mut S,
    report: &mut R,
) -> Status
    ensures { CarriedOut (walk_promise vcpu address) (effects (input_effect S.left S.faults input.old input.new)
        unreached (sink_effect R.written R.faults report.old report.new)) result }
{
    let found = frame_in_stream(alloc, vcpu, address, input);
    report_found(report, found)
}

/// Reads a stream in a file, and says on the report which frame an address means to a vCPU of its guest, as `walk` does.
pub fn walk_file<P: PageFile, R: Sink>(
    alloc: Global,
    vcpu: u32,
    address: u64,
    input: &mut FileSource<'_, P>,
    report: &mut R,
) -> Status
    ensures { CarriedOut (walk_promise vcpu address) (effects (input_effect (left_in P.bytes) failed_in input.old input.new)
        unreached (sink_effect R.written R.faults report.old report.new)) result }
{
    let found = frame_in_file(alloc, vcpu, address, input);
    report_found(report, found)
}

/// Reads the image of a host, and says on the report which machine frame an address means to a vCPU there.
pub fn walk_image<S: Source, R: Sink>(
    alloc: Global,
    vcpu: u32,
    address: u64,
    input: &mut S,
    report: &mut R,
) -> Status
    ensures { CarriedOut (walk_image_promise vcpu address) (effects (input_effect S.left S.faults input.old input.new)
        unreached (sink_effect R.written R.faults report.old report.new)) result }
{
    let found = frame_in_image(alloc, vcpu, address, input);
    report_found(report, found)
}
