ghost use Rattle.std.specs.Prelude.{◌≡◌, ◌≤◌, ◌<◌, ◌^◌, ℕ, List, length, Some, IfSome, IsSome};
ghost use Rattle.std.specs.FinMap as maps;
ghost use Rattle.mig_host_view.specs.Common.{Pv, PartKey, shared_key, blanked_table, renamed_table};
ghost use Rattle.mig_host_view.specs.Normalised.{normalised};

use crate::renaming::Renaming;
use mig_guest::Guest;
use mig_pvtables::{
    Frames, TableStep, ToStream, blank_shared_info, blank_table, blank_vcpus, each_context,
    each_table, rename_table, zero_p2m_frames,
};

/// Brings a table to its form in a stream.
fn normalise_page<F: Frames>(page: &mut [u8; 4096], level: u8, machines: &F)
    requires least { 1 ≤ level }
    requires most { level ≤ 4 }
    requires names { (mfn pfn : ℕ) → F.pfns machines.now mfn ≡ Some pfn → pfn < 2 ^ 40 }
    ensures { page.new ≡ blanked_table level (renamed_table (F.pfns machines.now) level page.old) }
{
    rename_table(page, level, &ToStream { frames: machines });
    blank_table(page, level);
}

/// Tables come to their form in a stream.
#[derive(Drop)]
struct Normalising<'a, F> {
    machines: &'a F,
}

impl<F: Frames> TableStep for Normalising<'_, F> {
    ghost tables = { λ step level page. blanked_table level (renamed_table (F.pfns step.machines.now) level page) };

    ghost can_change = { λ step. (mfn pfn : ℕ) → F.pfns step.machines.now mfn ≡ Some pfn → pfn < 2 ^ 40 };

    fn change_table(&self, page: &mut [u8; 4096], level: u8) {
        normalise_page(page, level, self.machines);
    }
}

/// Brings a PV guest that is in a machine to its form in a stream: PFNs are in place of machine frames, in blank
/// form. What names no PFN stays. Takes no memory.
pub fn normalise_guest<F: Frames>(guest: &mut Guest, machines: &F)
    requires pv { guest.old.kind ≡ Pv }
    requires contexts { (key : PartKey) (context : List ℕ) → maps.get guest.old.parts key ≡ Some context → key.code ≡ 4 → length context ≡ 5168 }
    requires shared { IfSome (maps.get guest.old.parts shared_key) (λ page. length page ≡ 4096) }
    requires sole { (key : PartKey) → IsSome (maps.get guest.old.parts key) → key.code ≡ 7 → key ≡ shared_key }
    requires names { (mfn pfn : ℕ) → F.pfns machines.now mfn ≡ Some pfn → pfn < 2 ^ 40 }
    ensures { guest.new ≡ normalised (F.pfns machines.now) guest.old }
{
    each_table(guest, &Normalising { machines });
    zero_p2m_frames(guest);
    let names = ToStream { frames: machines };
    each_context(guest, &Renaming { names: &names });
    blank_vcpus(guest);
    blank_shared_info(guest);
}
