ghost use Rattle.std.specs.Prelude.{◌≡◌, ℕ, List, length, true, Some, None, IfOk, IfSome, find};
ghost use Rattle.std.specs.FinMap as maps;
ghost use Rattle.mig_dirtysave.specs.Common.{FaultHasCause, PartKey, pfn_in, each_value, field_numbers, is_used_somewhere, names_ill, row_6};
ghost use Rattle.mig_guest.specs.Order.{part_cmp};
ghost use Rattle.mig_pvtables.specs.BlankSteps.{only};
ghost use Rattle.mig_host_view.specs.RenamedContexts.{renamed_context};
ghost use Rattle.mig_dirtysave.specs.Paused.{standing_seen, standing_with, with_names, OnlyLooksUp};

use crate::lookup::pfn_for_field;
use mig_bytes::Failed;
use mig_guest::mig_machine_api::Machine;
use mig_guest::{Guest, PartKey};
use mig_headers::Unsound;
use mig_pagetypes::PageType;
use mig_pvtables::{FIELDS, VCPU_BASIC, host_frame, put_vcpu_frame};

/// Puts the PFN of each machine frame that vCPU `id` uses in its place, up to the first field that says no machine frame
/// of its type, which is answered.
fn rename_context<M: Machine>(
    machine: &mut M,
    context: &mut [u8; 5168],
    id: u32,
    types: &[Option<PageType>],
) -> Result<Option<u8>, Failed>
    requires { (M.state machine.old).paused ≡ true }
    ensures found { IfOk result (λ found. found ≡ find (names_ill (standing_seen (M.state machine.old).host types.now) id context.old) field_numbers) }
    ensures renamed { IfOk result (λ found. found ≡ None → context.new ≡ renamed_context is_used_somewhere (pfn_in (M.state machine.old).host.frames) id context.old) }
    ensures looks { OnlyLooksUp (M.state machine.old) (M.state machine.new) }
    ensures later { M.Later machine.old machine.new }
    ensures cause { FaultHasCause (M.faults machine.old) (M.faults machine.new) result }
{
    for field in 0..FIELDS {
        if let Some(mfn) = host_frame(context, id, field) {
            match pfn_for_field(machine, types, field, mfn)? {
                Some(pfn) => put_vcpu_frame(context, id, field, pfn),
                None => return Ok(Some(field)),
            }
        }
    }
    Ok(None)
}

/// Puts PFNs into the context of this key, where there is one; the first field that says no machine frame of its type is
/// answered, and the context stays then.
fn rename_vcpu<M: Machine>(
    machine: &mut M,
    guest: &mut Guest,
    key: PartKey,
    types: &[Option<PageType>],
) -> Result<Option<u8>, Failed>
    requires paused { (M.state machine.old).paused ≡ true }
    requires long { IfSome (maps.get guest.old.parts key) (λ context. length context ≡ 5168) }
    ensures found { IfOk result (λ found. IfSome (maps.get guest.old.parts key) (λ context. found ≡ find (names_ill (standing_seen (M.state machine.old).host types.now) key.key1 context) field_numbers)) }
    ensures renamed { IfOk result (λ found. found ≡ None → guest.new ≡ record guest.old { parts = each_value (only part_cmp key (renamed_context is_used_somewhere (pfn_in (M.state machine.old).host.frames) key.key1)) guest.old.parts }) }
    ensures looks { OnlyLooksUp (M.state machine.old) (M.state machine.new) }
    ensures later { M.Later machine.old machine.new }
    ensures cause { FaultHasCause (M.faults machine.old) (M.faults machine.new) result }
{
    let Some(bytes) = guest.part(key) else {
        return Ok(None);
    };
    let mut context = *bytes.as_array::<5168>().unwrap();
    let ill = rename_context(machine, &mut context, key.key1, types)?;
    if ill.is_none() {
        guest.write_part(key, 0, &context);
    }
    Ok(ill)
}

/// Puts the PFN of each machine frame that a vCPU of a paused host uses in its place. The contexts come in the order of
/// their keys, and each field's machine frame is looked up once. The first field that says no machine frame of its
/// type, by the types that were seen last, ends it and is answered; contexts before it are renamed then.
pub fn rename_contexts<M: Machine>(
    machine: &mut M,
    guest: &mut Guest,
    types: &[Option<PageType>],
) -> Result<Option<Unsound>, Failed>
    requires paused { (M.state machine.old).paused ≡ true }
    requires contexts { (key : PartKey) (context : List ℕ) → maps.get guest.old.parts key ≡ Some context → key.code ≡ 4 → length context ≡ 5168 }
    ensures found { IfOk result (λ found. found ≡ row_6 (standing_with (M.state machine.old).host types.now guest.old.parts)) }
    ensures renamed { IfOk result (λ found. found ≡ None → guest.new ≡ with_names (M.state machine.old).host guest.old) }
    ensures looks { OnlyLooksUp (M.state machine.old) (M.state machine.new) }
    ensures later { M.Later machine.old machine.new }
    ensures cause { FaultHasCause (M.faults machine.old) (M.faults machine.new) result }
{
    let mut after = None;
    while let Some((key, _)) = guest.next_of_code(VCPU_BASIC, after) {
        if let Some(field) = rename_vcpu(machine, guest, key, types)? {
            return Ok(Some(Unsound::VcpuFrame(u64::from(key.key1), u64::from(field))));
        }
        after = Some(key);
    }
    Ok(None)
}
