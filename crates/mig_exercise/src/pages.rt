ghost use Rattle.std.specs.Prelude.{◌≡◌, ℕ, ◌+◌, ◌-◌, ◌*◌, ◌<◌, ◌≤◌, List, nat_lt, if◌then◌else◌};
ghost use Rattle.mig_exercise.specs.Common.{longs};
ghost use Rattle.mig_pvtables.specs.P2mPages.{p2m_page as page_of_p2m};
ghost use Rattle.mig_exercise.specs.ExerciseHosts.{IsExerciseSize, p2m_frame_count as count_of_p2m, first_data as first_of_data, exercise_type, exercise_machine, exercise_machine_of, exercise_page, table_naming};
ghost use Rattle.mig_exercise.specs.ExerciseSteps.{number_page};

use mig_bytes::put_u64_le;
use mig_pagetypes::PageType;

/// How many slots a page has.
const SLOTS: u64 = 512;

/// The machine frame of the last PFN; those before it are counted up from it.
const LAST_MACHINE: u64 = 2_000_000;

/// The bits of an entry that is present and no superpage.
const FLAGS: u64 = 0x67;

/// How many P2M frames there are.
pub(crate) fn p2m_frame_count(frames: u64) -> u64
    requires { IsExerciseSize frames }
    ensures { result ≡ count_of_p2m frames }
{
    (frames - 1) / SLOTS + 1
}

/// The PFN of the first frame of data.
pub(crate) fn first_data(frames: u64) -> u64
    requires { IsExerciseSize frames }
    ensures { result ≡ first_of_data frames }
{
    6 + p2m_frame_count(frames)
}

/// The machine frame of a PFN.
pub(crate) fn machine_of(frames: u64, pfn: u64) -> u64
    requires size { IsExerciseSize frames }
    requires inside { pfn < frames }
    ensures { result ≡ exercise_machine frames pfn }
{
    LAST_MACHINE + (frames - 1 - pfn)
}

/// The type of a PFN's frame.
pub(crate) fn type_of(pfn: u64) -> PageType
    ensures { result ≡ exercise_type pfn }
{
    match pfn {
        2 => PageType::L4Pinned,
        3 => PageType::L3Tab,
        4 => PageType::L2Tab,
        5 => PageType::L1Tab,
        _ => PageType::Notab,
    }
}

/// Writes so many numbers at the front of a page: the first one, and then each by a step less than the one before it.
fn put_falling(page: &mut [u8; 4096], count: usize, first: u64, step: u64)
    requires few { count ≤ 512 }
    requires falling { step * count ≤ first }
    ensures { (f : ℕ → ℕ) → page.old ≡ longs 512 f → page.new ≡ longs 512 (λ slot. if nat_lt slot count then first - step * slot else f slot) }
{
    for slot in 0..count {
        put_u64_le(page, 8 * slot, first - step * slot as u64);
    }
}

/// A table whose first slots name the frames from this PFN on.
fn table(frames: u64, count: usize, pfn: u64) -> [u8; 4096]
    requires size { IsExerciseSize frames }
    requires few { count ≤ 512 }
    requires inside { pfn + count ≤ frames }
    requires some { 0 < count }
    ensures { result ≡ table_naming frames count pfn }
{
    let mut page = [0; 4096];
    let first = machine_of(frames, pfn) * 4096 + FLAGS;
    put_falling(&mut page, count, first, 4096);
    page
}

/// P2M frame `k`.
fn p2m_page(frames: u64, k: u64) -> [u8; 4096]
    requires size { IsExerciseSize frames }
    requires inside { k < count_of_p2m frames }
    ensures { result ≡ page_of_p2m (exercise_machine_of frames) k }
{
    let mut page = [255; 4096];
    let count = (frames - SLOTS * k).min(SLOTS);
    put_falling(&mut page, count as usize, machine_of(frames, SLOTS * k), 1);
    page
}

/// The page of a PFN in front of the frames of data.
pub(crate) fn first_page(frames: u64, pfn: u64) -> [u8; 4096]
    requires size { IsExerciseSize frames }
    requires inside { pfn < first_of_data frames }
    ensures { (contents : ℕ → List ℕ) → result ≡ exercise_page frames contents pfn }
{
    if pfn < 2 {
        [0; 4096]
    } else if pfn < 5 {
        table(frames, 1, pfn + 1)
    } else if pfn == 5 {
        let first = first_data(frames);
        table(frames, (frames - first).min(SLOTS) as usize, first)
    } else {
        p2m_page(frames, pfn - 6)
    }
}

/// Writes a number at the front of a page.
pub(crate) fn put_number(page: &mut [u8; 4096], number: u64)
    ensures { (x : ℕ) → page.old ≡ number_page x → page.new ≡ number_page number }
{
    put_u64_le(page, 0, number);
}
