ghost use Rattle.std.specs.Prelude.{◌≡◌, ◌++◌, IfOk, OnOk};
ghost use Rattle.std.specs.FinMap as maps;
ghost use Rattle.mig_exercise.specs.Common.{little_bytes, Pv};
ghost use Rattle.mig_exercise.specs.ExerciseHosts.{IsExerciseSize, exercise_context, exercise_p2m_list, exercise_parts};

use crate::pages::{machine_of, p2m_frame_count};
use mig_bytes::{Memory, put_u64_le};
use mig_guest::PartKey;
use mig_host::Host;
use std::alloc::Global;

/// The key of the list of P2M frames.
const P2M_KEY: PartKey = PartKey {
    code: 3,
    key1: 0,
    key2: 0,
};

/// The key of the shared page.
const SHARED_KEY: PartKey = PartKey {
    code: 7,
    key1: 0,
    key2: 0,
};

/// The key of the context of vCPU 0.
const VCPU_KEY: PartKey = PartKey {
    code: 4,
    key1: 0,
    key2: 0,
};

/// Where a context has rdx.
const RDX: usize = 616;

/// Where it has the frames of the GDT.
const GDT_FRAMES: usize = 4832;

/// Where it has the number of the GDT's descriptors.
const GDT_ENTS: usize = 4960;

/// Where it has ctrlreg[3].
const CTRLREG_3: usize = 5008;

/// Puts a number of 8 bytes behind the bytes of a list.
fn push_number(list: &mut Vec<u8>, number: u64) -> Result<(), Memory>
    ensures { OnOk result (list.new.items ≡ list.old.items ++ little_bytes 8 number) }
{
    let mut bytes = [0; 8];
    put_u64_le(&mut bytes, 0, number);
    match list.extend_from_slice(&bytes) {
        Ok(()) => Ok(()),
        Err(_) => Err(Memory),
    }
}

/// The list of the P2M frames.
fn p2m_list(alloc: Global, frames: u64) -> Result<Vec<u8>, Memory>
    requires { IsExerciseSize frames }
    ensures { IfOk result (λ list. list.items ≡ exercise_p2m_list frames) }
{
    let count = p2m_frame_count(frames);
    let Ok(mut list) = Vec::with_capacity(alloc, 8 * count as usize) else {
        return Err(Memory);
    };
    for k in 0..count {
        push_number(&mut list, 6 + k)?;
    }
    Ok(list)
}

/// The context of the one vCPU: rdx names the start page, the GDT has one frame, and ctrlreg[3] names the table of level 4.
fn context(frames: u64) -> [u8; 5168]
    requires { IsExerciseSize frames }
    ensures { result ≡ exercise_context frames }
{
    let mut context = [0; 5168];
    put_u64_le(&mut context, CTRLREG_3, machine_of(frames, 2) * 4096);
    put_u64_le(&mut context, GDT_ENTS, 512);
    put_u64_le(&mut context, GDT_FRAMES, machine_of(frames, 1));
    put_u64_le(&mut context, RDX, machine_of(frames, 0));
    context
}

/// Sets all parts of a host that has none.
pub(crate) fn set_parts(alloc: Global, host: &mut Host, frames: u64) -> Result<(), Memory>
    requires size { IsExerciseSize frames }
    requires kind { host.old.host.kind ≡ Pv }
    requires width { host.old.host.width ≡ frames }
    requires none { host.old.host.parts ≡ maps.empty }
    ensures { OnOk result (host.new.host ≡ record host.old.host { parts = exercise_parts frames }) }
{
    let list = p2m_list(alloc, frames)?;
    let shared = [0; 4096];
    host.set_part(P2M_KEY, &list)?;
    host.set_part(SHARED_KEY, &shared)?;
    host.set_part(VCPU_KEY, &context(frames))
}
