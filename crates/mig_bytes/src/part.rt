ghost use Rattle.std.specs.Prelude.{◌≡◌, length, IfOk, IsErrOf, vec_len};
ghost use Rattle.mig_bytes.specs.Bytes.{TakesBytes, TakesFew};
ghost use Rattle.mig_bytes.specs.Faults.{RisesOnReadFault};
ghost use Rattle.mig_bytes.specs.Judged.{AgreesWithJudging, part};
ghost use Rattle.mig_bytes.specs.declared.stop.Stop.TheVariants.{Memory};

use crate::failure::ReadFailed;
use crate::source::Source;
use crate::stop::{Got, Stop, TakeFault};
use crate::{take_exact, take_vec};
use std::alloc::Global;

/// Takes a part that fills the buffer, and no byte more; `truncated` is the cause where the source ends before.
pub fn take_part<S: Source, C: Copy>(
    src: &mut S,
    buf: &mut [u8],
    truncated: C,
) -> Result<(), Stop<C>>
    ensures read { AgreesWithJudging (λ _ part. part ≡ buf.new) (S.left src.old) (S.left src.new) (part truncated (length buf.new)) result }
    ensures taken { TakesBytes (S.left src.old) (S.left src.new) }
    ensures few { TakesFew (length buf.new) (S.left src.old) (S.left src.new) }
    ensures faults { RisesOnReadFault (S.faults src.old) (S.faults src.new) result }
    ensures takes_no_memory { ¬ IsErrOf result Memory }
{
    match take_exact(src, buf) {
        Ok(Got::Whole) => Ok(()),
        Ok(Got::Short(_)) => Err(Stop::Refused(truncated)),
        Err(ReadFailed) => Err(Stop::ReadFault),
    }
}

/// Takes a part of any length, and no byte more; `truncated` is the cause where the source ends before.
pub fn take_long<S: Source, C: Copy>(
    alloc: Global,
    src: &mut S,
    len: u32,
    truncated: C,
) -> Result<Vec<u8>, Stop<C>>
    ensures read { AgreesWithJudging (λ v part. part ≡ v.items) (S.left src.old) (S.left src.new) (part truncated len) result }
    ensures taken { TakesBytes (S.left src.old) (S.left src.new) }
    ensures few { TakesFew len (S.left src.old) (S.left src.new) }
    ensures len { IfOk result (λ v. vec_len v ≡ len) }
    ensures faults { RisesOnReadFault (S.faults src.old) (S.faults src.new) result }
{
    let mut part = Vec::new(alloc);
    match take_vec(src, len as usize, &mut part) {
        Ok(Got::Whole) => Ok(part),
        Ok(Got::Short(_)) => Err(Stop::Refused(truncated)),
        Err(TakeFault::Read) => Err(Stop::ReadFault),
        Err(TakeFault::Memory) => Err(Stop::Memory),
    }
}
