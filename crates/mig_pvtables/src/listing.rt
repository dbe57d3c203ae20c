ghost use Rattle.std.specs.FinMap as maps;
ghost use Rattle.mig_pvtables.specs.Common.{p2m_key, option_map, code_number, FrameMap, PartMap, pfn_limit};
ghost use Rattle.std.specs.Prelude.{◌≡◌, ◌≤◌, ◌<◌, ◌^◌, IfSome, IfOk, IsSome, is_none, ◌==◌, ◌||◌, not, if◌then◌else◌};
ghost use Rattle.mig_pvtables.specs.Faults.{first_some, needed_keys, missing_code as code_of_missing, is_needed as has_frames, is_notab, type_at, find_p2m};
ghost use Rattle.mig_pvtables.specs.P2mFrames.{count_in, listed};
ghost use Rattle.mig_pvtables.specs.P2mMarks.{clashes};

use mig_bytes::{Memory, u64_le};
use mig_guest::{FrameStore, PartCode, PartKey, Parts};
use mig_headers::Kind;
use mig_pagestore_index::Index;
use mig_pagetypes::PageType;
use std::alloc::Global;

/// How an index holds the marks of PFNs that were listed: for ranges without frames, and for one that has some.
const EMPTY: u64 = 1;

const NEEDED: u64 = 2;

/// The key of the only part of its code.
pub fn sole_key(code: PartCode) -> PartKey
    ensures { result ≡ record { code = code_number code; key1 = 0; key2 = 0 } }
{
    PartKey {
        code: code.number(),
        key1: 0,
        key2: 0,
    }
}

/// Whoever has parts by their keys.
pub trait PartsByKey {
    /// The parts.
    ghost parts: { Self → PartMap };

    /// Whether there is no part of this key.
    fn lacks(&self, key: PartKey) -> bool
        ensures { result ≡ is_none (maps.get (parts self.now) key) };
}

impl PartsByKey for Parts {
    ghost parts = { λ parts. parts };

    fn lacks(&self, key: PartKey) -> bool {
        self.get(key).is_none()
    }
}

/// The number of a code whose only part isn't there.
fn missing_code<P: PartsByKey>(parts: &P, code: PartCode) -> Option<u64>
    ensures { result ≡ code_of_missing (P.parts parts.now) (record { code = code_number code; key1 = 0; key2 = 0 }) }
{
    if parts.lacks(sole_key(code)) {
        Some(u64::from(code.number()))
    } else {
        None
    }
}

/// The code of the first of the parts that each guest of this kind has that isn't there, as a number. Of the contexts of
/// a PV guest, that of vCPU 0 has to be.
#[tactic(auto, using(crate::proofs::Searches::first_of_three))]
pub fn missing_part<P: PartsByKey>(kind: Kind, parts: &P) -> Option<u64>
    ensures { result ≡ first_some (code_of_missing (P.parts parts.now)) (needed_keys kind) }
{
    match kind {
        Kind::Hvm => missing_code(parts, PartCode::HvmContext),
        Kind::Pv => missing_code(parts, PartCode::P2mFrames)
            .or(missing_code(parts, PartCode::SharedInfo))
            .or(missing_code(parts, PartCode::VcpuBasic)),
    }
}

/// The PFN of P2M frame `index`, where there are so many.
pub fn listed_pfn(parts: &Parts, index: usize) -> Option<u64>
    ensures value { result ≡ listed parts.now index }
    ensures small { IfSome result (λ _. index < 2 ^ 61) }
    ensures counted { IfSome result (λ _. index < count_in (maps.get parts.now p2m_key)) }
{
    let list = parts.get(sole_key(PartCode::P2mFrames))?;
    if index < list.len() / 8 {
        Some(u64_le(list, 8 * index))
    } else {
        None
    }
}

/// Whoever tells the types of frames.
pub trait TypedFrames {
    /// The frames.
    ghost frames: { Self → FrameMap };

    /// The type of a frame.
    fn type_of_frame(&self, pfn: u64) -> Option<PageType>
        ensures value { result ≡ type_at (frames self.now) pfn }
        ensures small { IsSome result → pfn < pfn_limit };

    /// Whether a PFN of P2M frame `index` has a frame.
    fn is_needed(&self, index: usize) -> bool
        requires { index < 2 ^ 50 }
        ensures { result ≡ has_frames (type_at (frames self.now)) index };
}

impl TypedFrames for FrameStore {
    ghost frames = { λ store. store.frames };

    fn type_of_frame(&self, pfn: u64) -> Option<PageType> {
        frame_type(self, pfn)
    }

    #[tactic(auto, using(crate::proofs::P2mWalks::none_needed, crate::proofs::P2mWalks::some_needed, crate::proofs::P2mWalks::later_needed))]
    fn is_needed(&self, index: usize) -> bool {
        let start = 512 * index as u64;
        match self.next(start) {
            Some((pfn, _, _)) => pfn - start < 512,
            None => false,
        }
    }
}

/// Whether a frame of this type can't be a P2M frame, or its PFN, which has this mark, is listed once too often.
pub fn is_misplaced(kind: Option<PageType>, mark: Option<bool>, needed: bool) -> bool
    ensures { result ≡ (not (is_notab kind) || clashes mark needed) }
{
    let Some(PageType::Notab) = kind else {
        return true;
    };
    match mark {
        Some(mark) => mark || needed,
        None => false,
    }
}

/// The mark of a PFN: whether one of the ranges that it was listed for has a frame.
fn mark_of(marks: &Index, pfn: u64) -> Option<bool>
    ensures { result ≡ option_map (λ v. v == 2) (maps.get marks.now.values pfn) }
{
    match marks.get(pfn) {
        Some(mark) => Some(mark == NEEDED),
        None => None,
    }
}

/// The mark of a PFN that is listed for a range that has frames, or for one without.
fn mark_for(needed: bool) -> u64
    ensures value { result ≡ if needed then 2 else 1 }
    ensures some { 0 < result }
{
    if needed { NEEDED } else { EMPTY }
}

/// The type of the frame with this number, or `None` where there is none.
pub fn frame_type(frames: &FrameStore, pfn: u64) -> Option<PageType>
    ensures value { result ≡ type_at frames.now.frames pfn }
    ensures small { IsSome result → pfn < pfn_limit }
{
    match frames.get(pfn) {
        Some((kind, _)) => Some(kind),
        None => None,
    }
}

/// The first place at which the list of the P2M frames is wrong. A mark is kept of each PFN that is a frame of its own, so
/// that memory is taken for frames that were sent, and not for what the list names.
pub fn misplaced_frame<T: TypedFrames>(
    alloc: Global,
    frames: &T,
    parts: &Parts,
) -> Result<Option<usize>, Memory>
    requires { count_in (maps.get parts.now p2m_key) ≤ 2 ^ 43 }
    ensures { IfOk result (λ place. place ≡ find_p2m (T.frames frames.now) parts.now) }
{
    let mut marks = Index::new(alloc);
    let mut index = 0;
    while let Some(pfn) = listed_pfn(parts, index) {
        let needed = frames.is_needed(index);
        if is_misplaced(frames.type_of_frame(pfn), mark_of(&marks, pfn), needed) {
            return Ok(Some(index));
        }
        let Ok(()) = marks.reserve(1) else {
            return Err(Memory);
        };
        marks.put_spare(pfn, mark_for(needed));
        index += 1;
    }
    Ok(None)
}
