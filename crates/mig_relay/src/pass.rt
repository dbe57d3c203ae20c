ghost use Rattle.std.specs.Prelude.{◌≡◌, List, ℕ, Option};
ghost use Rattle.mig_relay.specs.Keeping.{Stands};
ghost use Rattle.mig_relay.specs.Relaying.{HasPassed, IsRelayed, RisesOnAnswer, Turned, WritesOnReadFault, held_answer, unwritten};
ghost use Rattle.mig_relay.specs.Standing.{goes_on};
ghost use Rattle.mig_relay.specs.Waiting.{Fits};

use crate::answer::{RelayAnswer, Relayed, Step};
use crate::held::Held;
use crate::state::{Relay, goes_on};
use mig_bytes::{Sink, Source};
use std::alloc::Global;

/// The answer of a step whose sink fails only where no memory is found.
fn held_answer(answer: RelayAnswer) -> RelayAnswer
    ensures { result ≡ held_answer answer }
{
    if answer == RelayAnswer::WriteFault {
        RelayAnswer::Memory
    } else {
        answer
    }
}

/// The answer where what waits behind a step couldn't be written: of two failures the first.
fn unwritten(step: Result<Step, RelayAnswer>) -> RelayAnswer
    ensures { result ≡ unwritten step }
{
    match step {
        Err(RelayAnswer::ReadFault) => RelayAnswer::ReadFault,
        _ => RelayAnswer::WriteFault,
    }
}

impl Relay {
    /// Passes the next part on to what waits, and writes that where it is more than may wait in front of the part
    /// behind it. At the end of the stream, and where it isn't passed on further, all that waits is written.
    fn turn<S: Source, K: Sink>(
        &mut self,
        held: &mut Held,
        src: &mut S,
        sink: &mut K,
    ) -> Result<Step, RelayAnswer>
        requires { Stands self.old }
        ensures turned { (left written : Option (List ℕ)) → HasPassed self.old held.old.bytes left (S.left src.old) written (K.written sink.old) → Fits self.old held.old.bytes → Turned self.new held.new.bytes left (S.left src.new) written (K.written sink.new) result }
        ensures read { (left written : Option (List ℕ)) → HasPassed self.old held.old.bytes left (S.left src.old) written (K.written sink.old) → Fits self.old held.old.bytes → WritesOnReadFault left (S.left src.new) written (K.written sink.new) (K.faults sink.old) (K.faults sink.new) result }
        ensures faults { RisesOnAnswer (S.faults src.old) (S.faults src.new) (K.faults sink.old) (K.faults sink.new) result }
    {
        let result = self.pass_part(src, held);
        if goes_on(result) && held.len() <= self.may_wait() {
            return result;
        }
        if let Err(_) = held.flush(sink) {
            return Err(unwritten(result));
        }
        match result {
            Ok(step) => Ok(step),
            Err(answer) => Err(held_answer(answer)),
        }
    }
}

/// Passes a stream on from its first byte to its END, and leaves what follows it unread. Parts that were judged may wait
/// to be written with those behind them; whatever the answer, they are written before it, but where a write fails.
pub fn relay<S: Source, K: Sink>(
    alloc: Global,
    src: &mut S,
    sink: &mut K,
) -> Result<Relayed, RelayAnswer>
    ensures relayed { IsRelayed (S.left src.old) (S.left src.new) (K.written sink.old) (K.written sink.new) result }
    ensures read { WritesOnReadFault (S.left src.old) (S.left src.new) (K.written sink.old) (K.written sink.new) (K.faults sink.old) (K.faults sink.new) result }
    ensures faults { RisesOnAnswer (S.faults src.old) (S.faults src.new) (K.faults sink.old) (K.faults sink.new) result }
{
    let mut relay = Relay::new(alloc);
    let mut held = Held::new(alloc);
    for _ in 0..u64::MAX {
        let step = relay.turn(&mut held, src, sink)?;
        if step == Step::Done {
            return Ok(relay.relayed());
        }
    }
    if let Err(_) = held.flush(sink) {
        return Err(RelayAnswer::WriteFault);
    }
    if relay.is_at_end() {
        return Ok(relay.relayed());
    }
    Err(RelayAnswer::Memory)
}
