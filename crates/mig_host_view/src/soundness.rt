ghost use Rattle.std.specs.Prelude.{◌≡◌, ◌≤◌, ◌<◌, ◌^◌, ℕ, List, [], ◌∷◌, length, IfSome, IfOk, find};
ghost use Rattle.mig_host_view.specs.Common.{option_map, Superpage, NoFrame, GdtEnts, VcpuFrame, BadContext, PartKey, p2m_key, is_unknown, find_entry, find_in_contexts, first_cause, first_some, count_in, is_superpage, is_used_somewhere};
ghost use Rattle.std.specs.FinMap as maps;
ghost use Rattle.mig_host_view.specs.Sound.{absent, needed_keys, misnames, machine_type as type_of_machine_frame, find_gdt, find_context_fault, unsound_rows};

use mig_bytes::Memory;
use mig_guest::{FrameStore, MOST_GDT_ENTRIES, PartCode, Parts};
use mig_headers::{ContextFault, Kind, Unsound};
use mig_hvm::scan_context;
use mig_pagetypes::PageType;
use mig_pvtables::{
    FieldFrames, Frames, IsSuperpage, NamesUnknown, PartsByKey, bad_field, first_entry, frame_type,
    gdt_ents, host_frame, misplaced_frame, missing_part, next_context, sole_key,
};
use std::alloc::Global;

/// The first of the parts that each guest of this kind has that isn't there.
pub fn absent_needed<P: PartsByKey>(kind: Kind, parts: &P) -> Option<Unsound>
    ensures { result ≡ first_some (absent (P.parts parts.now)) (needed_keys kind) }
{
    let code = missing_part(kind, parts)?;
    Some(Unsound::Missing(code))
}

/// The first superpage in all tables, and where there is none, the first entry that names a machine frame without a PFN.
fn bad_entry<F: Frames>(frames: &FrameStore, machines: &F) -> Option<Unsound>
    ensures { result ≡ first_cause (option_map (λ at. Superpage at.0 at.1) (find_entry is_superpage frames.now.frames)
        ∷ option_map (λ at. NoFrame at.0 at.1) (find_entry (is_unknown (F.pfns machines.now)) frames.now.frames) ∷ []) }
{
    if let Some((pfn, slot)) = first_entry(frames, &IsSuperpage) {
        return Some(Unsound::Superpage(pfn, slot as u64));
    }
    let (pfn, slot) = first_entry(frames, &NamesUnknown { frames: machines })?;
    Some(Unsound::NoFrame(pfn, slot as u64))
}

/// The first vCPU whose GDT has too many descriptors: its id, and how many.
pub fn large_gdt(parts: &Parts) -> Option<(u32, u64)>
    requires { (key : PartKey) (context : List ℕ) → maps.get parts.now key ≡ Some context → key.code ≡ 4 → length context ≡ 5168 }
    ensures { result ≡ find_gdt parts.now }
{
    let mut after = None;
    while let Some((key, context)) = next_context(parts, after) {
        let descriptors = gdt_ents(context);
        if descriptors > MOST_GDT_ENTRIES {
            return Some((key.key1, descriptors));
        }
        after = Some(key);
    }
    None
}

/// The frames of a guest in a machine, by their machine frames.
#[derive(Drop)]
struct InMachine<'a, F> {
    frames: &'a FrameStore,
    machines: &'a F,
}

impl<F: Frames> FieldFrames for InMachine<'_, F> {
    ghost used = { λ _. is_used_somewhere };

    ghost types = { λ it. type_of_machine_frame it.frames.now.frames (F.pfns it.machines.now) };

    fn field_frame(&self, context: &[u8; 5168], id: u32, field: u8) -> Option<u64> {
        host_frame(context, id, field)
    }

    fn type_of(&self, frame: u64) -> Option<PageType> {
        let pfn = self.machines.pfn_of(frame)?;
        frame_type(self.frames, pfn)
    }
}

/// What is wrong with the context of an HVM guest, where there is one.
fn context_fault(parts: &Parts) -> Option<ContextFault>
    ensures { result ≡ find_context_fault parts.now }
{
    let bytes = parts.get(sole_key(PartCode::HvmContext))?;
    match scan_context(bytes) {
        Ok(_) => None,
        Err(fault) => Some(fault),
    }
}

/// The first cause in the contexts, of vCPUs or of an HVM guest.
fn bad_context<F: Frames>(frames: &FrameStore, parts: &Parts, machines: &F) -> Option<Unsound>
    requires { (key : PartKey) (context : List ℕ) → maps.get parts.now key ≡ Some context → key.code ≡ 4 → length context ≡ 5168 }
    ensures { result ≡ first_cause (option_map (λ at. GdtEnts at.0 at.1) (find_gdt parts.now)
        ∷ option_map (λ at. VcpuFrame at.0 at.1) (find_in_contexts (misnames frames.now.frames (F.pfns machines.now)) parts.now)
        ∷ option_map (λ fault. BadContext fault) (find_context_fault parts.now) ∷ []) }
{
    if let Some((id, descriptors)) = large_gdt(parts) {
        return Some(Unsound::GdtEnts(u64::from(id), descriptors));
    }
    if let Some((id, field)) = bad_field(parts, &InMachine { frames, machines }) {
        return Some(Unsound::VcpuFrame(u64::from(id), u64::from(field)));
    }
    let fault = context_fault(parts)?;
    Some(Unsound::BadContext(fault))
}

/// The first cause, at its least place, that a guest which is in a machine can't be seen as a guest; `machines` gives
/// the PFN of a machine frame. Memory is taken for marks of listed P2M frames alone.
pub fn unsoundness<F: Frames>(
    alloc: Global,
    kind: Kind,
    frames: &FrameStore,
    parts: &Parts,
    machines: &F,
) -> Result<Option<Unsound>, Memory>
    requires list { count_in (maps.get parts.now p2m_key) ≤ 2 ^ 43 }
    requires contexts { (key : PartKey) (context : List ℕ) → maps.get parts.now key ≡ Some context → key.code ≡ 4 → length context ≡ 5168 }
    ensures { IfOk result (λ found. found ≡ first_cause (unsound_rows kind frames.now.frames parts.now (F.pfns machines.now))) }
{
    if let Some(cause) = absent_needed(kind, parts) {
        return Ok(Some(cause));
    }
    if let Some(place) = misplaced_frame(alloc, frames, parts)? {
        return Ok(Some(Unsound::P2mFrame(place as u64)));
    }
    if let Some(cause) = bad_entry(frames, machines) {
        return Ok(Some(cause));
    }
    Ok(bad_context(frames, parts, machines))
}
