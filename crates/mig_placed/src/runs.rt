ghost use Rattle.std.specs.Prelude.{◌≡◌, ◌<◌, ◌≤◌, ◌+◌, ◌*◌, ◌^◌, ℕ, List, [], length, take, IfSome, IfNone, OnOk};
ghost use Rattle.std.specs.declared.option.Option.{Option};
ghost use Rattle.mig_placed.specs.Common.{pfn_limit, ValueMap};
ghost use Rattle.mig_placed.specs.InFile.{place_limit};
ghost use Rattle.mig_placed.specs.Runs.{frames_after, IsFirstCell, IsRunFrom, IsSmallRun};
ghost use Rattle.mig_file.specs.Files.{IsThere};

use crate::places::{PAGE, Places};
use mig_bytes::Failed;
use mig_file::PageFile;
use mig_pagetypes::FrameWord;

/// Pages that are one behind another in a file: where the first one stands, how many pages they are, of how many frames
/// they are all pages, and the number behind these frames.
#[derive(Clone, Copy)]
pub struct Run {
    pub at: u64,
    pub pages: u32,
    pub frames: u32,
    pub behind: u64,
}

/// The run with one frame more, which is the first one behind it; none where the frame's page isn't behind the others.
fn longer(run: Run, next: (u64, FrameWord)) -> Option<Run>
    requires small { IsSmallRun run }
    requires few { run.frames + 1 < 2 ^ 32 }
    requires next { (next.0 < pfn_limit) × (next.1.pfn ≤ place_limit) }
    ensures run { IfSome result (λ more. (cells : ValueMap) (from : ℕ) → IsRunFrom cells from run → IsFirstCell cells run.behind next → IsRunFrom cells from more) }
    ensures one { IfSome result (λ more. more.frames ≡ run.frames + 1) }
    ensures small { IfSome result (λ more. IsSmallRun more) }
    ensures some { IfNone result (0 < run.pages) }
{
    let (pfn, word) = next;
    let frames = run.frames + 1;
    let behind = pfn + 1;
    if word.pfn == 0 {
        return Some(Run {
            frames,
            behind,
            ..run
        });
    }
    let at = word.pfn - 1;
    if run.pages == 0 {
        return Some(Run {
            at,
            pages: 1,
            frames,
            behind,
        });
    }
    if at != run.at + PAGE * u64::from(run.pages) {
        return None;
    }
    Some(Run {
        pages: run.pages + 1,
        frames,
        behind,
        ..run
    })
}

/// The longest run of the frames from this number on, of at most so many frames.
pub(crate) fn find_run(places: &Places, from: u64, most: u32) -> Run
    ensures run { IsRunFrom places.now from result }
    ensures small { IsSmallRun result }
    ensures most { result.frames ≤ most }
    ensures some { result.frames ≡ 0 → 0 < most → (file : Option (List ℕ)) → frames_after file places.now from ≡ [] }
{
    let mut run = Run {
        at: 0,
        pages: 0,
        frames: 0,
        behind: from,
    };
    while run.frames < most {
        let Some(next) = places.next(run.behind) else {
            return run;
        };
        match longer(run, next) {
            Some(more) => run = more,
            None => return run,
        }
    }
    run
}

/// Reads the pages of a run to the front of the buffer.
pub(crate) fn read_run<P: PageFile>(file: &P, buffer: &mut [u8], run: Run) -> Result<(), Failed>
    requires room { 4096 * run.pages ≤ length buffer.old }
    ensures bytes { OnOk result (IfSome (P.bytes file.now) (λ all. IsThere all run.at (take (4096 * run.pages) buffer.new))) }
    ensures room { length buffer.new ≡ length buffer.old }
{
    let end = PAGE as usize * run.pages as usize;
    file.read_at(run.at, &mut buffer[0..end])
}
