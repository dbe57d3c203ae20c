ghost use Rattle.std.specs.Prelude.{◌≡◌, ◌≤◌, ℕ, length, true, None, Some, OnOk, OnErr, IsErrOf};
ghost use Rattle.mig_dirtysave.specs.Common.{Hvm, Pv, IsFormed, IsValid, unsoundness, AnswerHasCause, FaultsHaveCauses, AnswersTables, IsUnsound, SawTypes, is_of_no_type, UnsoundHas, HoldsParts, SameEmulators, SameSettings, is_setting, settings_seen, StopsBehind, ClosesStream};
ghost use Rattle.mig_headers.specs.declared.unsound.Unsound.{Unsound as UnsoundCause};
ghost use Rattle.mig_dirtysave.specs.Paused.{HasTypes, OnlyLooksUp};
ghost use Rattle.mig_dirtysave.specs.SaveAnswers.{IfUnsound, IsTrusted};
ghost use Rattle.mig_dirtysave.specs.declared.answer.SaveAnswer.TheVariants.{MachineFault, WriteFault};

use crate::answer::SaveAnswer;
use crate::viewing::view_parts;
use mig_bytes::Sink;
use mig_dirtysave_parts::{judge, refresh, write_last, write_pv_last};
use mig_dirtysave_rounds::Sent;
use mig_guest::Guest;
use mig_guest::mig_machine_api::Machine;
use mig_headers::{Kind, Unsound};
use mig_pagetypes::PageType;

/// Judges the host of a paused HVM machine, and writes what is behind the frames, END the last. `tables` is what was
/// found wrong with its tables. The settings are those of the host then.
fn close_hvm<M: Machine, K: Sink>(
    machine: &M,
    sink: &mut K,
    settings: &mut Guest,
    tables: Option<Unsound>,
) -> Result<(), SaveAnswer>
    requires held { HoldsParts is_setting (M.state machine.now).host.kind (M.state machine.now).host.width settings.old }
    requires same { SameSettings (M.state machine.now).host.parts settings.old.parts }
    requires valid { IsValid (M.state machine.now).host }
    requires hvm { (M.state machine.now).host.kind ≡ Hvm }
    requires stands { (u : UnsoundCause) → tables ≡ Some u → IsUnsound (M.state machine.now).host.frames u }
    ensures none { OnOk result (tables ≡ None) }
    ensures closed { OnOk result (ClosesStream (M.state machine.now).host (K.written sink.old) (K.written sink.new)) }
    ensures formed { OnOk result (IsFormed settings.new) }
    ensures emulators { OnOk result (SameEmulators (M.state machine.now).host.parts settings.new.parts) }
    ensures sound { OnOk result (unsoundness (M.state machine.now).host ≡ None) }
    ensures first { IfUnsound result (λ u. unsoundness (M.state machine.now).host ≡ Some u) }
    ensures stops { OnErr result (StopsBehind (K.written sink.old) (K.written sink.new)) }
    ensures cause { AnswerHasCause WriteFault (K.faults sink.old) (K.faults sink.new) result }
    ensures no_call { ¬ IsErrOf result MachineFault }
{
    let front = match judge(machine, tables) {
        Ok(front) => front,
        Err(unsound) => return Err(SaveAnswer::Unsound(unsound)),
    };
    refresh(settings, machine);
    write_last(sink, settings, front)?;
    Ok(())
}

/// Judges the host of a paused PV machine by the types that were seen last and what was found wrong with its tables.
/// Makes the settings those of the guest that it is seen as. There is a mark for each type at least.
fn settle<M: Machine>(
    machine: &mut M,
    settings: &mut Guest,
    marks: &mut [Option<bool>],
    types: &[Option<PageType>],
    tables: Option<Unsound>,
) -> Result<(), SaveAnswer>
    requires paused { (M.state machine.old).paused ≡ true }
    requires held { HoldsParts is_setting (M.state machine.old).host.kind (M.state machine.old).host.width settings.old }
    requires same { SameSettings (M.state machine.old).host.parts settings.old.parts }
    requires valid { IsValid (M.state machine.old).host }
    requires pv { (M.state machine.old).host.kind ≡ Pv }
    requires marks { length types.now ≤ length marks.old }
    requires types { (M.state machine.old).honest ≡ true → HasTypes (M.state machine.old).host types.now }
    requires tables { AnswersTables (M.state machine.old) tables }
    requires stands { (u : UnsoundCause) → tables ≡ Some u → IsUnsound (M.state machine.old).host.frames u }
    ensures none { OnOk result (tables ≡ None) }
    ensures seen { OnOk result (settings.new ≡ settings_seen (M.state machine.old).host) }
    ensures formed { OnOk result (IsFormed settings.new) }
    ensures sound { OnOk result ((M.state machine.old).honest ≡ true → unsoundness (M.state machine.old).host ≡ None) }
    ensures first { IfUnsound result (λ u. (M.state machine.old).honest ≡ true → unsoundness (M.state machine.old).host ≡ Some u) }
    ensures stands { IfUnsound result (λ u. is_of_no_type u ≡ true → (place : ℕ) × UnsoundHas (M.state machine.old).host place u) }
    ensures looks { OnlyLooksUp (M.state machine.old) (M.state machine.new) }
    ensures later { M.Later machine.old machine.new }
    ensures cause { AnswerHasCause MachineFault (M.faults machine.old) (M.faults machine.new) result }
    ensures no_write { ¬ IsErrOf result WriteFault }
{
    refresh(settings, machine);
    match view_parts(machine, settings, types, marks, tables) {
        Ok(None) => Ok(()),
        Ok(Some(unsound)) => Err(SaveAnswer::Unsound(unsound)),
        Err(_) => Err(SaveAnswer::MachineFault),
    }
}

/// Judges the host of a paused PV machine, and writes what is behind the frames, END the last. There is a mark for each
/// frame number, whatever it was before.
fn close_pv<M: Machine, K: Sink>(
    machine: &mut M,
    sink: &mut K,
    settings: &mut Guest,
    marks: &mut [Option<bool>],
    types: &[Option<PageType>],
    tables: Option<Unsound>,
) -> Result<(), SaveAnswer>
    requires paused { (M.state machine.old).paused ≡ true }
    requires held { HoldsParts is_setting (M.state machine.old).host.kind (M.state machine.old).host.width settings.old }
    requires same { SameSettings (M.state machine.old).host.parts settings.old.parts }
    requires valid { IsValid (M.state machine.old).host }
    requires pv { (M.state machine.old).host.kind ≡ Pv }
    requires marks { length marks.old ≡ (M.state machine.old).host.width }
    requires types { SawTypes types.now (M.state machine.old) }
    requires tables { AnswersTables (M.state machine.old) tables }
    requires stands { (u : UnsoundCause) → tables ≡ Some u → IsUnsound (M.state machine.old).host.frames u }
    ensures none { OnOk result (tables ≡ None) }
    ensures closed { OnOk result (ClosesStream (M.state machine.old).host (K.written sink.old) (K.written sink.new)) }
    ensures formed { OnOk result (IsFormed settings.new) }
    ensures emulators { OnOk result (SameEmulators (M.state machine.old).host.parts settings.new.parts) }
    ensures sound { OnOk result ((M.state machine.old).honest ≡ true → unsoundness (M.state machine.old).host ≡ None) }
    ensures first { IfUnsound result (λ u. (M.state machine.old).honest ≡ true → unsoundness (M.state machine.old).host ≡ Some u) }
    ensures stands { IfUnsound result (λ u. is_of_no_type u ≡ true → (place : ℕ) × UnsoundHas (M.state machine.old).host place u) }
    ensures stops { OnErr result (StopsBehind (K.written sink.old) (K.written sink.new)) }
    ensures looks { OnlyLooksUp (M.state machine.old) (M.state machine.new) }
    ensures later { M.Later machine.old machine.new }
    ensures faults { FaultsHaveCauses MachineFault WriteFault (M.faults machine.old) (M.faults machine.new) (K.faults sink.old) (K.faults sink.new) result }
{
    // What is beyond the marks is no frame number of the machine.
    let count = types.len().min(marks.len());
    settle(
        machine,
        settings,
        &mut marks[..count],
        &types[..count],
        tables,
    )?;
    write_pv_last(sink, settings)?;
    Ok(())
}

/// Judges the host of a paused machine, and writes what is behind the frames, END the last. Of a PV machine there is a
/// mark for each frame number.
pub(crate) fn close<M: Machine, K: Sink>(
    machine: &mut M,
    sink: &mut K,
    settings: &mut Guest,
    marks: &mut [Option<bool>],
    sent: &Sent,
) -> Result<(), SaveAnswer>
    requires paused { (M.state machine.old).paused ≡ true }
    requires held { HoldsParts is_setting (M.state machine.old).host.kind (M.state machine.old).host.width settings.old }
    requires same { SameSettings (M.state machine.old).host.parts settings.old.parts }
    requires valid { IsValid (M.state machine.old).host }
    requires marks { (M.state machine.old).host.kind ≡ Pv → length marks.old ≡ (M.state machine.old).host.width }
    requires types { SawTypes sent.now.types.items (M.state machine.old) }
    requires tables { AnswersTables (M.state machine.old) sent.now.unsound }
    requires stands { (u : UnsoundCause) → sent.now.unsound ≡ Some u → IsUnsound (M.state machine.old).host.frames u }
    ensures none { OnOk result (sent.now.unsound ≡ None) }
    ensures closed { OnOk result (ClosesStream (M.state machine.old).host (K.written sink.old) (K.written sink.new)) }
    ensures formed { OnOk result (IsFormed settings.new) }
    ensures emulators { OnOk result (SameEmulators (M.state machine.old).host.parts settings.new.parts) }
    ensures sound { OnOk result (IsTrusted (M.state machine.old) → unsoundness (M.state machine.old).host ≡ None) }
    ensures first { IfUnsound result (λ u. IsTrusted (M.state machine.old) → unsoundness (M.state machine.old).host ≡ Some u) }
    ensures stands { IfUnsound result (λ u. is_of_no_type u ≡ true → (place : ℕ) × UnsoundHas (M.state machine.old).host place u) }
    ensures stops { OnErr result (StopsBehind (K.written sink.old) (K.written sink.new)) }
    ensures looks { OnlyLooksUp (M.state machine.old) (M.state machine.new) }
    ensures later { M.Later machine.old machine.new }
    ensures faults { FaultsHaveCauses MachineFault WriteFault (M.faults machine.old) (M.faults machine.new) (K.faults sink.old) (K.faults sink.new) result }
{
    match machine.kind() {
        Kind::Hvm => close_hvm(machine, sink, settings, sent.unsound),
        Kind::Pv => close_pv(machine, sink, settings, marks, &sent.types, sent.unsound),
    }
}
