ghost use Rattle.std.specs.Prelude.{◌≡◌, ◌<◌, OnOk, is_some, if◌then◌else◌};
ghost use Rattle.std.specs.FinMap as maps;
ghost use Rattle.mig_guest.specs.Formed.{IsFormed};
ghost use Rattle.mig_host.specs.Hosted.{mfn_in};
ghost use Rattle.mig_localised.specs.Over.{IsInMachine, seated, zeroed_frame};
ghost use Rattle.mig_pagetypes.specs.Limits.{pfn_limit};

use mig_blanked::blank_outline;
use mig_bytes::Memory;
use mig_guest::Guest;
use mig_host::{HostAnswer, localise_counted};
use mig_pagestore_index::Index;
use mig_pagetypes::PageType;
use std::alloc::Global;

/// Gives this frame, where there is one, a page of zeros.
fn seat(outline: &mut Guest, pfn: u64) -> Result<(), Memory>
    requires { pfn < pfn_limit }
    ensures { OnOk result (outline.new ≡ if is_some (maps.get outline.old.frames pfn) then record outline.old { frames = maps.insert outline.old.frames pfn zeroed_frame } else outline.old) }
{
    match outline.frame(pfn) {
        Some(_) => outline.set_frame(pfn, PageType::Notab, Some(&[0; 4096])),
        None => Ok(()),
    }
}

/// Gives each marked frame a page of zeros. A marked number without a frame takes no memory.
fn seat_marked(outline: &mut Guest, marks: &Index) -> Result<(), Memory>
    ensures { OnOk result (outline.new ≡ seated marks.now.values outline.old) }
{
    let mut from = 0;
    while let Some((pfn, _)) = marks.next(from) {
        seat(outline, pfn)?;
        from = pfn + 1;
    }
    Ok(())
}

/// Brings the outline of a guest to the form in which it stands in a machine: the frame of rank i gets machine frame base + i,
/// and the P2M frames get their pages. Where the base is out of range or no memory is found, nothing is said of the outline.
pub fn localise_outline(alloc: Global, base: u64, outline: &mut Guest) -> Result<(), HostAnswer>
    requires { IsFormed outline.old }
    ensures { OnOk result (IsInMachine base outline.old outline.new) }
{
    let Ok(marks) = blank_outline(alloc, outline) else {
        return Err(HostAnswer::Memory);
    };
    let Ok(()) = seat_marked(outline, &marks) else {
        return Err(HostAnswer::Memory);
    };
    localise_counted(alloc, outline, base)
}
