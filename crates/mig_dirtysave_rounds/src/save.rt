ghost use Rattle.std.specs.Prelude.{◌≡◌, ◌+◌, ◌*◌, ◌/◌, ◌^◌, ◌≤◌, [], length, true, false, OnOk, OnErr, IfOk, Some, None};
ghost use Rattle.mig_dirtysave_rounds.specs.Common.{most_saved_width, Unsound, pfns_of_words, size, no_history, IsValidState, most_rounds, IsBelow};
ghost use Rattle.mig_dirtysave_rounds.specs.Causes.{FaultsHaveCauses};
ghost use Rattle.mig_dirtysave_rounds.specs.Parts.{entries_read, entries_read_before};
ghost use Rattle.mig_dirtysave_rounds.specs.Current.{notes_of};
ghost use Rattle.mig_dirtysave_rounds.specs.Entries.{MostSent};
ghost use Rattle.mig_dirtysave_rounds.specs.Live.{KeepsShape, Live, Ended, SendsRounds, RoundsLeaveBehind, Saved, SendsLast, worst_fault, IsUnsound, AnswersTables, HasRounds, ReadsExactly, FramesSaved, SawTypes};
ghost use Rattle.mig_dirtysave_rounds.specs.declared.found.SendFault.TheVariants.{MachineFault, WriteFault};

use crate::found::{SendFault, Worst};
use crate::room::Room;
use crate::round::send_all;
use crate::sets::take_more;
use mig_bytes::Sink;
use mig_guest::mig_machine_api::Machine;
use mig_guest::pfn_set::{count, join};
use mig_headers::Unsound;
use mig_pagetypes::PageType;
use mig_records_pages::Batch;

/// The most rounds before the pause.
const MOST_ROUNDS: u32 = 5;

/// No further round comes behind a log that names fewer frame numbers.
const LEAST_LOG: u64 = 50;

/// What the rounds before the pause came to.
#[derive(Clone, Copy, Debug, PartialEq, Eq)]
struct RoundsSent {
    /// The logs that were taken.
    rounds: u32,
    /// The entries that were sent.
    entries: u64,
}

/// What sending the frames of a machine came to.
#[derive(Drop)]
pub struct Sent {
    /// The logs that were taken before the pause.
    pub rounds: u32,
    /// The entries that were sent.
    pub entries: u64,
    /// The first thing that is wrong with the tables of the paused host.
    pub unsound: Option<Unsound>,
    /// The type that was seen last of each frame number.
    pub types: Vec<Option<PageType>>,
}

/// Rounds, while the logs are long, and fewer than five: each reads and sends the set, and takes the log as the next set.
fn run_rounds<M: Machine, K: Sink>(
    machine: &mut M,
    sink: &mut K,
    batch: &mut Batch,
    set: &mut [u64],
    deferred: &mut [u64],
    types: &mut [Option<PageType>],
    page: &mut [u8; 4096],
) -> Result<RoundsSent, SendFault>
    requires narrow { (M.state machine.old).host.width ≤ most_saved_width }
    requires words { length set.old ≡ ((M.state machine.old).host.width + 63) / 64 }
    requires wide { length deferred.old ≡ length set.old }
    requires long { length types.old ≡ (M.state machine.old).host.width }
    requires below { IsBelow (M.state machine.old).host.width (pfns_of_words set.old) }
    requires noted { IsBelow (M.state machine.old).host.width (pfns_of_words deferred.old) }
    requires empty { batch.old ≡ [] }
    requires live { Live (M.state machine.old) (pfns_of_words set.old) }
    requires first { (M.state machine.old).history ≡ no_history }
    ensures ended { IfOk result (λ sent. Ended sent.rounds (M.state machine.new) (pfns_of_words set.new)) }
    ensures entries { IfOk result (λ sent. sent.entries ≡ entries_read_before (M.state machine.new).host.width (M.state machine.new).history.taken) }
    ensures few { IfOk result (λ sent. sent.entries ≤ most_rounds * 2 ^ 28) }
    ensures sent { IfOk result (λ sent. SendsRounds sent.rounds (M.state machine.old) (M.state machine.new) (pfns_of_words set.old) (pfns_of_words set.new) (K.written sink.old) (K.written sink.new)
        (notes_of deferred.old types.old) (notes_of deferred.new types.new)) }
    ensures behind { OnErr result (RoundsLeaveBehind 0 (M.state machine.old) (M.state machine.new) (pfns_of_words set.old) (K.written sink.old) (K.written sink.new) (notes_of deferred.old types.old)) }
    ensures kept { KeepsShape (M.state machine.old) (M.state machine.new) }
    ensures below { OnOk result (IsBelow (M.state machine.new).host.width (pfns_of_words set.new)) }
    ensures noted { OnOk result (IsBelow (M.state machine.new).host.width (pfns_of_words deferred.new)) }
    ensures sized { length set.new ≡ length set.old }
    ensures empty { OnOk result (batch.new ≡ []) }
    ensures later { M.Later machine.old machine.new }
    ensures faults { FaultsHaveCauses MachineFault WriteFault (M.faults machine.old) (M.faults machine.new) (K.faults sink.old) (K.faults sink.new) result }
{
    let mut rounds = 0;
    let mut entries = 0;
    loop {
        entries += count(set);
        send_all(machine, sink, batch, set, deferred, types, page)?;
        machine.take_log(set)?;
        rounds += 1;
        if rounds == MOST_ROUNDS || count(set) < LEAST_LOG {
            return Ok(RoundsSent { rounds, entries });
        }
    }
}

/// Pauses, and reads and sends what the last two logs name and what is deferred.
fn finish<M: Machine, K: Sink>(
    machine: &mut M,
    sink: &mut K,
    batch: &mut Batch,
    set: &mut [u64],
    deferred: &mut [u64],
    types: &mut [Option<PageType>],
    log: &mut [u64],
    page: &mut [u8; 4096],
    rounds: u32,
) -> Result<Worst, SendFault>
    requires narrow { (M.state machine.old).host.width ≤ most_saved_width }
    requires words { length set.old ≡ ((M.state machine.old).host.width + 63) / 64 }
    requires wide { length deferred.old ≡ length set.old }
    requires long { length types.old ≡ (M.state machine.old).host.width }
    requires below { IsBelow (M.state machine.old).host.width (pfns_of_words set.old) }
    requires noted { IsBelow (M.state machine.old).host.width (pfns_of_words deferred.old) }
    requires log { length log.old ≡ length set.old }
    requires empty { batch.old ≡ [] }
    requires ended { Ended rounds (M.state machine.old) (pfns_of_words set.old) }
    ensures saved { OnOk result (Saved rounds (M.state machine.new)) }
    ensures read { OnOk result (entries_read (M.state machine.new).host.width (M.state machine.new).history ≡ entries_read_before (M.state machine.old).host.width (M.state machine.old).history.taken + size (M.state machine.new).host.width (pfns_of_words set.new)) }
    ensures below { OnOk result (IsBelow (M.state machine.new).host.width (pfns_of_words set.new)) }
    ensures sized { length set.new ≡ length set.old }
    ensures sent { IfOk result (SendsLast rounds (M.state machine.old) (M.state machine.new) (pfns_of_words set.old) (K.written sink.old) (K.written sink.new)
        (notes_of deferred.old types.old) (notes_of deferred.new types.new)) }
    ensures stands { IfOk result (λ worst. (u : Unsound) → worst_fault worst ≡ Some u → IsUnsound (M.state machine.new).host.frames u) }
    ensures behind { OnErr result (RoundsLeaveBehind rounds (M.state machine.old) (M.state machine.new) (pfns_of_words set.old) (K.written sink.old) (K.written sink.new) (notes_of deferred.old types.old)) }
    ensures kept { KeepsShape (M.state machine.old) (M.state machine.new) }
    ensures later { M.Later machine.old machine.new }
    ensures faults { FaultsHaveCauses MachineFault WriteFault (M.faults machine.old) (M.faults machine.new) (K.faults sink.old) (K.faults sink.new) result }
{
    machine.pause()?;
    take_more(machine, log, set)?;
    join(set, deferred);
    send_all(machine, sink, batch, set, deferred, types, page)
}

/// The first thing that is wrong with the tables.
fn unsound_of(worst: Worst) -> Option<Unsound>
    ensures { result ≡ worst_fault worst }
{
    match worst.superpage {
        Some((pfn, slot)) => Some(Unsound::Superpage(pfn, slot as u64)),
        None => match worst.lost {
            Some((pfn, slot)) => Some(Unsound::NoFrame(pfn, slot as u64)),
            None => None,
        },
    }
}

/// Sends the frames of a machine while its guest runs, and pauses it. The room was made beforehand for the machine's width,
/// so this takes no memory. A table that no stream can have ends nothing: the first one is answered in `unsound`. The error
/// is which of the two failed.
pub fn send_frames<M: Machine, K: Sink>(
    machine: &mut M,
    sink: &mut K,
    room: Room,
) -> Result<Sent, SendFault>
    requires valid { IsValidState (M.state machine.old) }
    requires width { room ≡ (M.state machine.old).host.width }
    requires unpaused { (M.state machine.old).paused ≡ false }
    requires unread { (M.state machine.old).history ≡ no_history }
    ensures paused { OnOk result ((M.state machine.new).paused ≡ true) }
    ensures rounds { OnOk result (HasRounds (M.state machine.new)) }
    ensures exact { IfOk result (λ sent. sent.unsound ≡ None → ReadsExactly (M.state machine.new)) }
    ensures report { IfOk result (λ sent. sent.rounds ≡ (M.state machine.new).history.live) }
    ensures entries { IfOk result (λ sent. sent.entries ≡ entries_read (M.state machine.new).host.width (M.state machine.new).history) }
    ensures frames { IfOk result (λ sent. FramesSaved (K.written sink.old) (K.written sink.new) (M.state machine.new) sent.unsound) }
    ensures types { IfOk result (λ sent. SawTypes sent.types.items (M.state machine.new)) }
    ensures whole { IfOk result (λ sent. length sent.types.items ≡ (M.state machine.new).host.width) }
    ensures first { IfOk result (λ sent. AnswersTables (M.state machine.new) sent.unsound) }
    ensures stands { IfOk result (λ sent. (u : Unsound) → sent.unsound ≡ Some u → IsUnsound (M.state machine.new).host.frames u) }
    ensures behind { OnErr result (MostSent (K.written sink.old) (K.written sink.new) (M.state machine.old).host.kind (M.state machine.old).host.width (M.state machine.new).history) }
    ensures kept { KeepsShape (M.state machine.old) (M.state machine.new) }
    ensures later { M.Later machine.old machine.new }
    ensures faults { FaultsHaveCauses MachineFault WriteFault (M.faults machine.old) (M.faults machine.new) (K.faults sink.old) (K.faults sink.new) result }
{
    let Room {
        mut batch,
        mut set,
        mut deferred,
        mut types,
        mut log,
    } = room;
    let mut page = [0; 4096];
    let before = run_rounds(
        machine,
        sink,
        &mut batch,
        &mut set,
        &mut deferred,
        &mut types,
        &mut page,
    )?;
    let worst = finish(
        machine,
        sink,
        &mut batch,
        &mut set,
        &mut deferred,
        &mut types,
        &mut log,
        &mut page,
        before.rounds,
    )?;
    Ok(Sent {
        rounds: before.rounds,
        entries: before.entries + count(&set),
        unsound: unsound_of(worst),
        types,
    })
}
