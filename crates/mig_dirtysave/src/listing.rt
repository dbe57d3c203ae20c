ghost use Rattle.std.specs.Prelude.{◌≡◌, ◌≤◌, ℕ, length, get_or, Some, None};
ghost use Rattle.mig_dirtysave.specs.Common.{is_needed, find_misplaced};
ghost use Rattle.mig_dirtysave.specs.Paused.{types_seen};

use crate::lookup::noted_at;
use mig_bytes::u64_le;
use mig_pagetypes::PageType;
use mig_pvtables::is_misplaced;

/// Whether some PFN of P2M frame `index` was seen to have a frame.
fn has_frame(types: &[Option<PageType>], index: usize) -> bool
    ensures { result ≡ is_needed (types_seen types.now) index }
{
    // Beyond the types there is no frame, and 512 * index could be too great.
    if index > types.len() / 512 {
        return false;
    }
    let start = 512 * index as u64;
    for slot in 0..512 {
        if noted_at(types, start + slot).is_some() {
            return true;
        }
    }
    false
}

/// No frame number is marked.
fn clear(marks: &mut [Option<bool>])
    ensures { (pfn : ℕ) → get_or marks.new pfn None ≡ None }
{
    for mark in marks.iter_mut() {
        *mark = None;
    }
}

/// The first place at which the list of the P2M frames, as part 3 has it, is wrong by the types that were seen last. There
/// is a mark for each frame number, whatever it was before: where the number is listed, whether it is for a range that has a
/// frame. Takes no memory.
pub fn misplaced_by_type(
    list: &[u8],
    types: &[Option<PageType>],
    marks: &mut [Option<bool>],
) -> Option<usize>
    requires { length types.now ≤ length marks.old }
    ensures { result ≡ find_misplaced (types_seen types.now) (Some list.now) }
{
    clear(marks);
    for index in 0..list.len() / 8 {
        let pfn = u64_le(list, 8 * index);
        let needed = has_frame(types, index);
        if is_misplaced(noted_at(types, pfn), noted_at(marks, pfn), needed) {
            return Some(index);
        }
        marks[pfn as usize] = Some(needed);
    }
    None
}
