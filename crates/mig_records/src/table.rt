ghost use Rattle.std.specs.Prelude.{◌≡◌, ◌≢◌, ◌≤◌, ◌+◌, ◌*◌, length, [], true, None, IsOk, OnOk, OnErr, IsTrue, ◌↔◌};
ghost use Rattle.mig_records.specs.Common.{AllByRecursion, put_part, put_parts, code_number, PartKey, is_policy};
ghost use Rattle.std.specs.FinMap as maps;
ghost use Rattle.mig_records.specs.Layouts.{AreWidths, IsLayout, IsSmallKey, entry_width, front_width, entry_part, fault_of_key, fault_of_entry, fault_of_entries, fault_of_table, entry_count, entry_parts, parts_of_table};
ghost use Rattle.mig_records.specs.Shapes.{cleared, set_parts};

use crate::layout::Layout;
use crate::number::{behind, number};
use mig_bytes::{Memory, u32_le};
use mig_guest::{Guest, PartCode, PartKey};
use mig_headers::{Cause, VCPU_LIMIT};

/// What is refused of a key.
pub(crate) fn key_fault(code: PartCode, key1: u64, key2: u64) -> Option<Cause>
    ensures { result ≡ fault_of_key code key1 key2 }
{
    let is_small = key1 < u64::from(VCPU_LIMIT) && key2 == 0;
    match code {
        PartCode::HvmParam if !is_small => Some(Cause::ParamIndex(key1)),
        PartCode::VcpuBasic | PartCode::VcpuExtended | PartCode::VcpuXsave | PartCode::VcpuMsrs
            if !is_small => { Some(Cause::VcpuId(key1)) }
        _ => None,
    }
}

/// How many entries the body has.
fn count_entries(layout: Layout, body: &[u8]) -> usize
    requires widths { AreWidths layout }
    requires front { front_width layout ≤ length body.now }
    ensures { result ≡ entry_count layout body.now }
{
    if layout.counted {
        u32_le(body, 0) as usize
    } else {
        body.len() / layout.entry_width()
    }
}

/// What is refused of the key of the first entry.
fn entry_fault(code: PartCode, layout: Layout, bytes: &[u8]) -> Option<Cause>
    requires widths { AreWidths layout }
    requires whole { entry_width layout ≤ length bytes.now }
    ensures { result ≡ fault_of_entry code layout bytes.now }
{
    let key1 = number(bytes, layout.key1_width);
    let key2 = number(behind(bytes, layout.key1_width), layout.key2_width);
    key_fault(code, key1, key2)
}

/// The first fault of the keys of `count` entries.
#[tactic(auto, using(crate::proofs::Reading::longer))]
fn entries_fault(code: PartCode, layout: Layout, bytes: &[u8], count: usize) -> Option<Cause>
    requires widths { AreWidths layout }
    requires whole { length bytes.now ≡ entry_width layout * count }
    ensures { result ≡ fault_of_entries code layout count bytes.now }
{
    let mut rest = bytes;
    for i in 0..count {
        if let Some(cause) = entry_fault(code, layout, rest) {
            return Some(cause);
        }
        rest = behind(rest, layout.entry_width());
    }
    None
}

/// What is wrong with a table: `BadLength` where its entries ask for another length, else what is refused of the first
/// key that is refused.
pub(crate) fn table_fault(code: PartCode, layout: Layout, body: &[u8]) -> Option<Cause>
    requires { AreWidths layout }
    ensures { result ≡ fault_of_table code layout body.now }
{
    if body.len() < layout.front_width() {
        return Some(Cause::BadLength(body.len() as u64));
    }
    let count = count_entries(layout, body);
    let wanted = layout.front_width() as u128 + layout.entry_width() as u128 * count as u128;
    if body.len() as u128 != wanted {
        return Some(Cause::BadLength(body.len() as u64));
    }
    entries_fault(code, layout, behind(body, layout.front_width()), count)
}

/// Sets the part of the first entry.
#[tactic(auto, using(crate::proofs::Reading::small_entry))]
fn set_entry(guest: &mut Guest, code: PartCode, layout: Layout, bytes: &[u8]) -> Result<(), Memory>
    requires layout { IsLayout code layout }
    requires whole { entry_width layout ≤ length bytes.now }
    requires fine { fault_of_entry code layout bytes.now ≡ None }
    ensures ok { OnOk result (guest.new ≡ record guest.old { parts = put_part guest.old.parts (entry_part code layout bytes.now) }) }
    ensures err { OnErr result (guest.new ≡ guest.old) }
{
    let at = layout.key1_width + layout.key2_width;
    let key1 = number(bytes, layout.key1_width);
    let key2 = number(behind(bytes, layout.key1_width), layout.key2_width);
    let key = PartKey {
        code: code.number(),
        key1: key1 as u32,
        key2: key2 as u32,
    };
    guest.set_part(key, &bytes[at..at + layout.value_width])
}

/// Sets the parts of `count` entries, of each key the last. Where no memory is found, some of them may be set.
#[tactic(auto, using(crate::proofs::Reading::longer, crate::proofs::Reading::shorter, crate::proofs::Reading::fine_first, crate::proofs::Reading::guest_next, crate::proofs::Reading::others_next))]
fn set_entries(
    guest: &mut Guest,
    code: PartCode,
    layout: Layout,
    bytes: &[u8],
    count: usize,
) -> Result<(), Memory>
    requires layout { IsLayout code layout }
    requires whole { length bytes.now ≡ entry_width layout * count }
    requires fine { fault_of_entries code layout count bytes.now ≡ None }
    ensures ok { OnOk result (guest.new ≡ record guest.old { parts = put_parts guest.old.parts (entry_parts code layout count bytes.now) }) }
    ensures others { (key : PartKey) → key.code ≢ code_number code → maps.get guest.new.parts key ≡ maps.get guest.old.parts key }
    ensures frames { guest.new ≡ record guest.old { parts = guest.new.parts } }
    ensures empty { count ≡ 0 → IsOk result }
{
    let mut rest = bytes;
    for i in 0..count {
        set_entry(guest, code, layout, rest)?;
        rest = behind(rest, layout.entry_width());
    }
    Ok(())
}

/// Whether the code's parts are a policy's entries.
fn is_policy(code: PartCode) -> bool
    ensures { result ≡ is_policy (code_number code) }
{
    matches!(code, PartCode::CpuidLeaf | PartCode::Msr)
}

/// Takes all parts of a policy away.
fn clear_policy(guest: &mut Guest, code: PartCode)
    ensures { guest.new ≡ record guest.old { parts = cleared code guest.old.parts } }
{
    if is_policy(code) {
        guest.clear_code(code.number());
    }
}

/// Sets the parts of a table without fault, for a policy in place of all earlier ones; of each key the last entry decides.
/// A table of no entries changes nothing. Where no memory is found, some of these parts may be set or gone.
#[tactic(auto, using(crate::proofs::Reading::small_table, crate::proofs::Reading::cleared_keeps, crate::proofs::Reading::none_counted))]
pub(crate) fn read_table(
    guest: &mut Guest,
    code: PartCode,
    layout: Layout,
    body: &[u8],
) -> Result<(), Memory>
    requires layout { IsLayout code layout }
    requires faultless { fault_of_table code layout body.now ≡ None }
    ensures ok { OnOk result (guest.new ≡ record guest.old { parts = set_parts code guest.old.parts (parts_of_table code layout body.now) }) }
    ensures small { AllByRecursion (λ p. IsSmallKey p.0) (parts_of_table code layout body.now) }
    ensures others { (key : PartKey) → key.code ≢ code_number code → maps.get guest.new.parts key ≡ maps.get guest.old.parts key }
    ensures frames { guest.new ≡ record guest.old { parts = guest.new.parts } }
    ensures empty { parts_of_table code layout body.now ≡ [] → IsOk result }
{
    let count = count_entries(layout, body);
    if count == 0 {
        return Ok(());
    }
    clear_policy(guest, code);
    set_entries(
        guest,
        code,
        layout,
        behind(body, layout.front_width()),
        count,
    )
}
