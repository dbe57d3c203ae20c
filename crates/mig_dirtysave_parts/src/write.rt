ghost use Rattle.std.specs.Prelude.{◌+◌, ◌≤◌, length, [], ◌∷◌, ◌++◌, OnOk, OnErr};
ghost use Rattle.mig_dirtysave_parts.specs.Common.{Appends, IsFormed, spelled, text_of, Pv, last_records};
ghost use Rattle.mig_bytes.specs.Bytes.{Puts};
ghost use Rattle.mig_bytes.specs.Faults.{FaultHasCause};
ghost use Rattle.mig_headers.specs.RecordTypes.{most_body};
ghost use Rattle.mig_dirtysave_parts.specs.SaveTexts.{text_before, context_record, closing_records, StopsBehind};

use mig_bytes::{Sink, WriteFailed, put_all};
use mig_canon::{
    write_codes, write_headers, write_info, write_p2m_frames, write_static, write_vcpus,
};
use mig_guest::{Guest, PartCode};
use mig_headers::HVM_CONTEXT;
use mig_records::{write_head, write_padding};
use mig_records_pages::write_end;

/// Appends what is before the frames: the headers, the policies, and of a PV guest its P2M frames. After `WriteFailed` some
/// first bytes are appended, but not all.
pub fn write_before<K: Sink>(sink: &mut K, early: &Guest) -> Result<(), WriteFailed>
    requires { IsFormed early.now }
    ensures bytes { Puts (text_before early.now) (K.written sink.old) (K.written sink.new) result }
    ensures cause { FaultHasCause (K.faults sink.old) (K.faults sink.new) result }
{
    write_headers(sink, early.kind())?;
    write_info(sink, early)?;
    write_static(sink, early)?;
    write_p2m_frames(sink, early)
}

/// Appends the record of a context: its entries before END, and an END of zeros.
fn write_context<K: Sink>(sink: &mut K, front: &[u8]) -> Result<(), WriteFailed>
    requires { length front.now + 8 ≤ most_body }
    ensures bytes { Puts (spelled 9 (context_record front.now).1) (K.written sink.old) (K.written sink.new) result }
    ensures cause { FaultHasCause (K.faults sink.old) (K.faults sink.new) result }
{
    let len = front.len() as u32 + 8;
    write_head(sink, HVM_CONTEXT, len)?;
    put_all(sink, front)?;
    put_all(sink, &[0; 8])?;
    write_padding(sink, len)
}

/// Appends the settings and the context of an HVM guest.
fn write_behind<K: Sink>(sink: &mut K, settings: &Guest, front: &[u8]) -> Result<(), WriteFailed>
    requires formed { IsFormed settings.now }
    requires short { length front.now + 8 ≤ most_body }
    ensures bytes { Puts (text_of (closing_records settings.now front.now)) (K.written sink.old) (K.written sink.new) result }
    ensures cause { FaultHasCause (K.faults sink.old) (K.faults sink.new) result }
{
    write_codes(sink, settings, &[PartCode::Tsc, PartCode::HvmParam])?;
    write_context(sink, front)
}

/// Appends the settings and the context of an HVM guest, and END. After `WriteFailed` some whole records
/// are appended and a part of one more, perhaps none of either.
pub fn write_last<K: Sink>(sink: &mut K, settings: &Guest, front: &[u8]) -> Result<(), WriteFailed>
    requires formed { IsFormed settings.now }
    requires short { length front.now + 8 ≤ most_body }
    ensures closed { OnOk result (Appends (K.written sink.old) (K.written sink.new) (text_of (closing_records settings.now front.now ++ (0, []) ∷ []))) }
    ensures stops { OnErr result (StopsBehind (K.written sink.old) (K.written sink.new)) }
    ensures cause { FaultHasCause (K.faults sink.old) (K.faults sink.new) result }
{
    write_behind(sink, settings, front)?;
    write_end(sink)
}

/// Appends the settings of a PV guest: the TSC, the shared page, and the parts of its vCPUs.
fn write_settings<K: Sink>(sink: &mut K, settings: &Guest) -> Result<(), WriteFailed>
    requires { IsFormed settings.now }
    ensures bytes { Puts (text_of (last_records Pv settings.now)) (K.written sink.old) (K.written sink.new) result }
    ensures cause { FaultHasCause (K.faults sink.old) (K.faults sink.new) result }
{
    write_codes(sink, settings, &[PartCode::Tsc, PartCode::SharedInfo])?;
    write_vcpus(sink, settings)
}

/// Appends the settings of a PV guest, and END. After `WriteFailed` some whole records are appended and a part
/// of one more, perhaps none of either.
pub fn write_pv_last<K: Sink>(sink: &mut K, settings: &Guest) -> Result<(), WriteFailed>
    requires { IsFormed settings.now }
    ensures closed { OnOk result (Appends (K.written sink.old) (K.written sink.new) (text_of (last_records Pv settings.now ++ (0, []) ∷ []))) }
    ensures stops { OnErr result (StopsBehind (K.written sink.old) (K.written sink.new)) }
    ensures cause { FaultHasCause (K.faults sink.old) (K.faults sink.new) result }
{
    write_settings(sink, settings)?;
    write_end(sink)
}
