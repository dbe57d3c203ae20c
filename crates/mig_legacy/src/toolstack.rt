ghost use Rattle.std.specs.Prelude.{◌≡◌, ◌≤◌, length, drop, ◌++◌, None, IfOk, OnOk};
ghost use Rattle.mig_legacy.specs.Judged.{entries_fault, physmaps_in, toolstack_fault as fault_of, toolstack};
ghost use Rattle.mig_legacy.specs.Texts.{text_of_physmaps};

use crate::fault::{entry_fault, entry_len};
use crate::text::put_physmap;
use mig_bytes::{Memory, u32_le};
use std::alloc::Global;

/// Where the first wrong field is in so many entries behind the first 8 bytes, or what follows the last.
#[tactic(auto, using(crate::proofs::Entries::entries_step, crate::proofs::Entries::entries_stop, crate::proofs::Entries::entries_end))]
fn entries_place(body: &[u8], count: u32) -> Option<u64>
    requires { 8 ≤ length body.now }
    ensures { result ≡ entries_fault count 8 (drop 8 body.now) }
{
    let mut rest = &body[8..];
    for _ in 0..count {
        if let Some(field) = entry_fault(rest) {
            return Some((body.len() - rest.len() + field) as u64);
        }
        rest = &rest[entry_len(rest)..];
    }
    if rest.is_empty() {
        None
    } else {
        Some((body.len() - rest.len()) as u64)
    }
}

/// Where the first wrong field is in the data of a toolstack, in bytes from their beginning. Wrong is a field that
/// isn't whole, a version other than 1, a name without its one zero at the end, and what follows the last entry.
#[tactic(auto, unfolding(crate::specs::Judged::toolstack_fault))]
pub fn toolstack_fault(body: &[u8]) -> Option<u64>
    ensures value { result ≡ fault_of body.now }
{
    if body.len() < 4 || u32_le(body, 0) != 1 {
        return Some(0);
    }
    if body.len() < 8 {
        return Some(4);
    }
    entries_place(body, u32_le(body, 4))
}

/// Puts the pairs of so many entries behind the first 8 bytes at the end.
#[tactic(auto, using(crate::proofs::Names::whole_entry, crate::proofs::Entries::entries_step, crate::proofs::Entries::faultless_next, crate::proofs::Entries::texts_step, crate::proofs::Entries::texts_end))]
fn put_entries(text: &mut Vec<u8>, body: &[u8], count: u32) -> Result<(), Memory>
    requires head { 8 ≤ length body.now }
    requires faultless { entries_fault count 8 (drop 8 body.now) ≡ None }
    ensures { OnOk result (text.new.items ≡ text.old.items ++ text_of_physmaps (physmaps_in count (drop 8 body.now))) }
{
    let mut rest = &body[8..];
    for _ in 0..count {
        put_physmap(text, rest)?;
        rest = &rest[entry_len(rest)..];
    }
    Ok(())
}

/// The pairs that the data of a toolstack make of the device model's store, key NUL value NUL, in the order of the
/// entries. Of a key that is there again the last value is meant.
#[tactic(auto, unfolding(crate::specs::Judged::toolstack_fault, crate::specs::Judged::toolstack))]
pub fn physmap_pairs(alloc: Global, body: &[u8]) -> Result<Vec<u8>, Memory>
    requires faultless { fault_of body.now ≡ None }
    ensures ok { IfOk result (λ text. text.items ≡ text_of_physmaps (toolstack body.now)) }
{
    let mut text = Vec::new(alloc);
    put_entries(&mut text, body, u32_le(body, 4))?;
    Ok(text)
}
