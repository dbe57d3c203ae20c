ghost use Rattle.std.specs.Prelude.{◌≡◌, IsErrOf, ⊤};
ghost use Rattle.mig_records.specs.Common.{padding_len, RisesOnReadFault, Truncated};
ghost use Rattle.mig_bytes.specs.Judged.{AgreesWithJudging, part};
ghost use Rattle.mig_bytes.specs.declared.stop.Stop.TheVariants.{Memory};
ghost use Rattle.mig_records.specs.Heads.{head_in};

use crate::RecordHead;
use mig_bytes::{Source, Stop, pad_len, take_part};
use mig_headers::Cause;

/// Takes a record's head of 8 bytes, of a libxc image or of a libxl stream. A head that isn't whole is refused as
/// Truncated. It takes no memory.
pub fn take_head<S: Source>(src: &mut S) -> Result<RecordHead, Stop<Cause>>
    ensures read { AgreesWithJudging (λ head bytes. head ≡ head_in bytes) (S.left src.old) (S.left src.new) (part Truncated 8) result }
    ensures faults { RisesOnReadFault (S.faults src.old) (S.faults src.new) result }
    ensures takes_no_memory { ¬ IsErrOf result Memory }
{
    let mut bytes = [0; 8];
    take_part(src, &mut bytes, Cause::Truncated)?;
    Ok(RecordHead::decode(&bytes))
}

/// Takes the bytes behind a body of this length that make it a multiple of 8; any bytes may be there. Padding that
/// isn't whole is refused as Truncated. It takes no memory.
pub fn take_padding<S: Source>(src: &mut S, len: u32) -> Result<(), Stop<Cause>>
    ensures read { AgreesWithJudging (λ _ _. ⊤) (S.left src.old) (S.left src.new) (part Truncated (padding_len len)) result }
    ensures faults { RisesOnReadFault (S.faults src.old) (S.faults src.new) result }
    ensures takes_no_memory { ¬ IsErrOf result Memory }
{
    let mut padding = [0; 8];
    take_part(src, &mut padding[..pad_len(len)], Cause::Truncated)
}
