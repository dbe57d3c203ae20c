ghost use Rattle.std.specs.Prelude.{◌≡◌, ◌≢◌, ◌<◌, ◌≤◌, ◌+◌, ℕ, List, true, is_some, IfNone, IfSome};
ghost use Rattle.std.specs.declared.option.Option.{Option};
ghost use Rattle.std.specs.FinMap as maps;
ghost use Rattle.mig_blanked.specs.Behind.{page_behind};
ghost use Rattle.mig_blanked.specs.Plain.{ArePlain};
ghost use Rattle.mig_pagetypes.specs.PageTypes.{level_of};
ghost use Rattle.mig_placed.specs.InFile.{place_limit};

use mig_pagestore_index::Index;
use mig_pagetypes::PageType;
use mig_placed::Places;

/// How many bytes a page has.
const PAGE: u64 = 4096;

/// Whether a frame is neither marked nor a page table.
fn is_plain(marks: &Index, pfn: u64, kind: PageType) -> bool
    ensures plain { result ≡ true → (kept page : Option (List ℕ)) → page_behind (is_some (maps.get marks.now.values pfn)) (level_of kind) kept page ≡ page }
{
    marks.get(pfn).is_none() && kind.table_level().is_none()
}

/// The place behind a run of pages, with one page more at this place: places are counted from 1, and 0 stands for no page.
/// None where that page doesn't stand right behind the run.
fn end_with(end: u64, place: u64) -> Option<u64>
    requires small { place ≤ place_limit }
    ensures page { 0 < place → IfSome result (λ more. more ≡ place + 4096) }
    ensures over { place ≡ 0 → IfSome result (λ more. more ≡ end) }
    ensures apart { IfNone result ((0 < end) × (0 < place) × (end ≢ place)) }
{
    if place == 0 {
        return Some(end);
    }
    if end != 0 && end != place {
        return None;
    }
    Some(place + PAGE)
}

/// How many frames from a number on, at most so many, have the pages that stand in the file. It counts no further than these
/// stand one behind another there, since only such are read at once.
pub(crate) fn count_plain(marks: &Index, places: &Places, from: u64, most: u32) -> u32
    ensures plain { ArePlain marks.now.values places.now from result }
    ensures most { result ≤ most }
{
    let mut count = 0;
    let mut at = from;
    let mut end = 0;
    while count < most {
        let Some((pfn, cell)) = places.next(at) else {
            return count;
        };
        if !is_plain(marks, pfn, cell.kind) {
            return count;
        }
        let Some(more) = end_with(end, cell.pfn) else {
            return count;
        };
        end = more;
        at = pfn + 1;
        count += 1;
    }
    count
}
