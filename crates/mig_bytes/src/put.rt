ghost use Rattle.mig_bytes.specs.Bytes.{Puts};
ghost use Rattle.mig_bytes.specs.Faults.{FaultHasCause};

use crate::failure::{Failed, WriteFailed};
use crate::sink::Sink;

/// Appends all of the piece. After `WriteFailed` some first bytes of it are appended, but not all.
#[tactic(auto, using(std::proofs::lemmas::List::take_rest, crate::proofs::Streams::put_more))]
pub fn put_all<K: Sink>(sink: &mut K, piece: &[u8]) -> Result<(), WriteFailed>
    ensures bytes { Puts piece.now (K.written sink.old) (K.written sink.new) result }
    ensures cause { FaultHasCause (K.faults sink.old) (K.faults sink.new) result }
{
    let mut put = 0;
    while put < piece.len() {
        match sink.write(&piece[put..]) {
            Ok(count) => put += count,
            Err(Failed) => return Err(WriteFailed),
        }
    }
    Ok(())
}
