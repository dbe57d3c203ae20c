ghost use Rattle.std.specs.Prelude.{◌≡◌, ℕ, List, IfOk, OnOk};
ghost use Rattle.mig_exercise.specs.ExerciseHosts.{IsExerciseSize, first_contents, first_data as first_of_data, host_of_exercise};
ghost use Rattle.mig_exercise.specs.ExerciseSteps.{host_begun};

use crate::numbers::next_number;
use crate::pages::{first_data, first_page, machine_of, put_number, type_of};
use crate::parts::set_parts;
use mig_bytes::Memory;
use mig_headers::Kind;
use mig_host::Host;
use mig_pagetypes::PageType;
use std::alloc::Global;

/// Adds the frames in front of those of data, to a host that has no frame.
fn add_first(host: &mut Host, frames: u64) -> Result<(), Memory>
    requires size { IsExerciseSize frames }
    requires none { (contents : ℕ → List ℕ) → host.old.host ≡ host_begun frames contents 0 }
    ensures { OnOk result ((contents : ℕ → List ℕ) → host.new.host ≡ host_begun frames contents (first_of_data frames)) }
{
    for pfn in 0..first_data(frames) {
        let page = first_page(frames, pfn);
        host.add_frame(pfn, type_of(pfn), machine_of(frames, pfn), Some(&page))?;
    }
    Ok(())
}

/// Adds the frames of data, behind those in front of them.
fn add_data(host: &mut Host, seed: u64, frames: u64) -> Result<(), Memory>
    requires size { IsExerciseSize frames }
    requires first { host.old.host ≡ host_begun frames (first_contents seed) (first_of_data frames) }
    ensures { OnOk result (host.new.host ≡ host_begun frames (first_contents seed) frames) }
{
    let mut page = [0; 4096];
    let mut number = seed;
    for pfn in first_data(frames)..frames {
        number = next_number(number);
        put_number(&mut page, number);
        host.add_frame(pfn, PageType::Notab, machine_of(frames, pfn), Some(&page))?;
    }
    Ok(())
}

/// Adds the frames and the parts of the exercise to a host that has none.
fn fill(alloc: Global, host: &mut Host, seed: u64, frames: u64) -> Result<(), Memory>
    requires size { IsExerciseSize frames }
    requires none { (contents : ℕ → List ℕ) → host.old.host ≡ host_begun frames contents 0 }
    ensures { OnOk result (host.new.host ≡ host_of_exercise seed frames) }
{
    add_first(host, frames)?;
    add_data(host, seed, frames)?;
    set_parts(alloc, host, frames)
}

/// The host of the exercise with so many frames, from 8 to 65536. The seed tells what its frames of data hold.
pub fn exercise_host(alloc: Global, seed: u64, frames: u64) -> Result<Host, Memory>
    requires { IsExerciseSize frames }
    ensures { IfOk result (λ host. host.host ≡ host_of_exercise seed frames) }
{
    let mut host = Host::new(alloc, Kind::Pv, frames);
    fill(alloc, &mut host, seed, frames)?;
    Ok(host)
}
