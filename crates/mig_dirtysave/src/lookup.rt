ghost use Rattle.std.specs.Prelude.{◌≡◌, ◌<◌, ◌^◌, true, Some, None, IfOk, IfSome, IsSome, is_some, option_and_then, length, get_or};
ghost use Rattle.mig_dirtysave.specs.Common.{FaultHasCause, pfn_in, fits_field};
ghost use Rattle.mig_dirtysave.specs.Paused.{types_seen, OnlyLooksUp};

use mig_bytes::Failed;
use mig_guest::mig_machine_api::Machine;
use mig_pagetypes::PageType;
use mig_pvtables::is_type_of_field;

/// What is noted at a frame number, as the type that was seen last; none beyond those that were looked at.
pub(crate) fn noted_at<T: Copy>(notes: &[Option<T>], pfn: u64) -> Option<T>
    ensures value { result ≡ get_or notes.now pfn None }
    ensures inside { IsSome result → pfn < length notes.now }
{
    if pfn < notes.len() as u64 {
        notes[pfn as usize]
    } else {
        None
    }
}

/// The PFN that has a machine frame of a paused machine.
fn look_up<M: Machine>(machine: &mut M, mfn: u64) -> Result<Option<u64>, Failed>
    requires { (M.state machine.old).paused ≡ true }
    ensures answer { IfOk result (λ pfn. pfn ≡ pfn_in (M.state machine.old).host.frames mfn) }
    ensures small { IfOk result (λ pfn. IfSome pfn (λ p. p < 2 ^ 40)) }
    ensures looks { OnlyLooksUp (M.state machine.old) (M.state machine.new) }
    ensures later { M.Later machine.old machine.new }
    ensures cause { FaultHasCause (M.faults machine.old) (M.faults machine.new) result }
{
    machine.pfn_of(mfn)
}

/// The PFN that has a machine frame of a paused machine, where its frame is of the type of a field.
pub(crate) fn pfn_for_field<M: Machine>(
    machine: &mut M,
    types: &[Option<PageType>],
    field: u8,
    mfn: u64,
) -> Result<Option<u64>, Failed>
    requires { (M.state machine.old).paused ≡ true }
    ensures fits { IfOk result (λ pfn. is_some pfn ≡ fits_field field (option_and_then (types_seen types.now) (pfn_in (M.state machine.old).host.frames mfn))) }
    ensures found { IfOk result (λ pfn. IfSome pfn (λ p. pfn_in (M.state machine.old).host.frames mfn ≡ Some p)) }
    ensures small { IfOk result (λ pfn. IfSome pfn (λ p. p < 2 ^ 40)) }
    ensures looks { OnlyLooksUp (M.state machine.old) (M.state machine.new) }
    ensures later { M.Later machine.old machine.new }
    ensures cause { FaultHasCause (M.faults machine.old) (M.faults machine.new) result }
{
    match look_up(machine, mfn)? {
        Some(pfn) if is_type_of_field(field, noted_at(types, pfn)) => Ok(Some(pfn)),
        _ => Ok(None),
    }
}
