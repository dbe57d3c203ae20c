ghost use Rattle.std.specs.Prelude.{◌≡◌, ◌≢◌, ◌≤◌, ◌⊎◌};
ghost use Rattle.mig_tool_guest.specs.Common.{Appends, AppendsPart, Rose, relayed_line, CarriedOut, effects, input_effect, sink_effect};
ghost use Rattle.mig_tool_report.specs.declared.status.Status.TheVariants as statuses;
ghost use Rattle.mig_tool_guest.specs.RelaySteps.{outcome_of_relay, summary_of_relay};
ghost use Rattle.mig_tool_guest.specs.Promises.{relay_promise};

use mig_bytes::{Sink, Source};
use mig_relay::{RelayAnswer, Relayed, relay as pass_on};
use mig_tool_report::{Outcome, Refusal, RelaySummary, Status, finish, put_relayed};
use std::alloc::Global;

/// The outcome where no stream was passed on to its end.
fn unrelayed(answer: RelayAnswer) -> Outcome
    ensures { result ≡ outcome_of_relay answer }
{
    match answer {
        RelayAnswer::Refused(place, cause) => Outcome::Refused(Refusal::Stream(place, cause)),
        RelayAnswer::ReadFault => Outcome::ReadFault,
        RelayAnswer::WriteFault => Outcome::WriteFault,
        RelayAnswer::Memory => Outcome::Memory,
    }
}

/// Puts the line of a stream that was passed on.
fn told<R: Sink>(report: &mut R, relayed: Relayed) -> Status
    ensures done { result ≡ statuses.Done → Appends (R.written report.old) (R.written report.new) (relayed_line (summary_of_relay relayed)) }
    ensures part { result ≡ statuses.WriteFault → AppendsPart (R.written report.old) (R.written report.new) (relayed_line (summary_of_relay relayed)) }
    ensures answers { (result ≡ statuses.Done) ⊎ (result ≡ statuses.WriteFault) }
    ensures quiet { result ≡ statuses.Done → R.faults report.new ≡ R.faults report.old }
    ensures rose { result ≡ statuses.WriteFault → Rose (R.faults report.old) (R.faults report.new) }
    ensures later { R.faults report.old ≤ R.faults report.new }
{
    let summary = RelaySummary {
        records: u64::from(relayed.records),
        bytes: relayed.bytes,
    };
    match put_relayed(report, summary) {
        Ok(()) => Status::Done,
        Err(_) => Status::WriteFault,
    }
}

/// Passes a stream on to the output, and says on the report how much that was.
pub fn relay<S: Source, K: Sink, R: Sink>(
    alloc: Global,
    input: &mut S,
    out: &mut K,
    report: &mut R,
) -> Status
    ensures { CarriedOut relay_promise (effects (input_effect S.left S.faults input.old input.new)
        (sink_effect K.written K.faults out.old out.new) (sink_effect R.written R.faults report.old report.new)) result }
{
    match pass_on(alloc, input, out) {
        Ok(relayed) => told(report, relayed),
        Err(answer) => finish(report, unrelayed(answer)),
    }
}
