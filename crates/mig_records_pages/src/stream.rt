ghost use Rattle.std.specs.Prelude.{◌≢◌, ◌≤◌, ◌^◌, [], length, OnErr};
ghost use Rattle.mig_records_pages.specs.Common.{Puts, FaultHasCause, spelled};
ghost use Rattle.mig_records_pages.specs.Written.{JoinsRecords, LeavesPart};

use mig_bytes::{Sink, WriteFailed};
use mig_headers::END;
use mig_records::write_record;

/// Appends a record that isn't END. After `WriteFailed` some first bytes are appended, but not all.
pub fn write_plain<K: Sink>(sink: &mut K, kind: u32, body: &[u8]) -> Result<(), WriteFailed>
    requires short { length body.now ≤ 2 ^ 27 }
    requires no_end { kind ≢ 0 }
    ensures bytes { Puts (spelled kind body.now) (K.written sink.old) (K.written sink.new) result }
    ensures joins { JoinsRecords (kind, body.now) (K.written sink.old) (K.written sink.new) result }
    ensures cause { FaultHasCause (K.faults sink.old) (K.faults sink.new) result }
{
    write_record(sink, kind, body)
}

/// Appends END. After `WriteFailed` some first bytes are appended, but not all.
#[tactic(auto, using(crate::proofs::Written::end_fails))]
pub fn write_end<K: Sink>(sink: &mut K) -> Result<(), WriteFailed>
    ensures bytes { Puts (spelled 0 []) (K.written sink.old) (K.written sink.new) result }
    ensures unended { OnErr result (LeavesPart (K.written sink.old) (K.written sink.new)) }
    ensures cause { FaultHasCause (K.faults sink.old) (K.faults sink.new) result }
{
    write_record(sink, END, &[])
}
