ghost use Rattle.std.specs.Prelude.{◌≡◌, ℕ, IfOk, OnOk, is_some, if◌then◌else◌};
ghost use Rattle.std.specs.FinMap as maps;
ghost use Rattle.mig_blanked.specs.Behind.{MarkListed};

use mig_bytes::Memory;
use mig_guest::Parts;
use mig_pagestore::FrameStore;
use mig_pagestore_index::Index;
use mig_pvtables::{frame_type, listed_pfn};
use std::alloc::Global;

/// What an index holds of a marked frame.
const MARK: u64 = 1;

/// Marks this frame, where there is one.
fn mark(marks: &mut Index, frames: &FrameStore, pfn: u64) -> Result<(), Memory>
    ensures { OnOk result (marks.new.values ≡ if is_some (maps.get frames.now.frames pfn) then maps.insert marks.old.values pfn 1 else marks.old.values) }
{
    if frame_type(frames, pfn).is_none() {
        return Ok(());
    }
    let Ok(()) = marks.reserve(1) else {
        return Err(Memory);
    };
    marks.put_spare(pfn, MARK);
    Ok(())
}

/// Marks each of these frames that the list of the P2M frames names. What the list names without being one of them takes no
/// memory.
pub(crate) fn mark_listed(
    alloc: Global,
    frames: &FrameStore,
    parts: &Parts,
) -> Result<Index, Memory>
    ensures { IfOk result (λ marks. MarkListed frames.now.frames parts.now marks.values) }
{
    let mut marks = Index::new(alloc);
    let mut index = 0;
    while let Some(pfn) = listed_pfn(parts, index) {
        mark(&mut marks, frames, pfn)?;
        index += 1;
    }
    Ok(marks)
}
