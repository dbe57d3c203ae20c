ghost use Rattle.std.specs.Prelude.{◌≡◌, ◌⊎◌, string_bytes};
ghost use Rattle.mig_tool_guest.specs.Common.{Appends, AppendsPart, status_of, OutputRises, CarriedOut, ComesTo, effects, input_effect, sink_effect, unreached};
ghost use Rattle.mig_tool_report.specs.declared.outcome.Outcome.TheVariants as outcomes;
ghost use Rattle.mig_tool_guest.specs.Promises.{show_promise};
ghost use Rattle.mig_tool_guest.specs.Shown.{SaysShown};
ghost use Rattle.mig_tool_guest.specs.ShownSteps.{outcome_of_shown, outcome_of_unshown};

use mig_bytes::{Sink, Source, put_all};
use mig_headers::{Cause, Place};
use mig_show::{ShowAnswer, ShownText, show_text};
use mig_tool_report::{Outcome, Refusal, Status, finish};
use std::alloc::Global;

/// The outcome where nothing is shown.
fn unshown(answer: ShowAnswer) -> Outcome
    ensures { result ≡ outcome_of_unshown answer }
{
    match answer {
        ShowAnswer::ReadFault => Outcome::ReadFault,
        ShowAnswer::Memory => Outcome::Memory,
    }
}

/// The outcome where the whole text was written.
fn written_whole(refused: Option<(Place, Cause)>) -> Outcome
    ensures { result ≡ outcome_of_shown refused }
{
    match refused {
        None => Outcome::Done,
        Some((place, cause)) => Outcome::Refused(Refusal::Stream(place, cause)),
    }
}

/// Writes the line of what is shown.
fn write_shown<K: Sink>(shown: ShownText, out: &mut K) -> Outcome
    ensures whole { result ≡ outcome_of_shown shown.refused → Appends (K.written out.old) (K.written out.new) (string_bytes shown.line) }
    ensures part { result ≡ outcomes.WriteFault → AppendsPart (K.written out.old) (K.written out.new) (string_bytes shown.line) }
    ensures answers { (result ≡ outcome_of_shown shown.refused) ⊎ (result ≡ outcomes.WriteFault) }
    ensures write { OutputRises (status_of result) (K.faults out.old) (K.faults out.new) }
{
    match put_all(out, shown.line.as_bytes()) {
        Ok(()) => written_whole(shown.refused),
        Err(_) => Outcome::WriteFault,
    }
}

/// Takes a stream, and writes a JSON text of its records that stand whole in front of the part that is refused.
fn shown<S: Source, K: Sink>(alloc: Global, input: &mut S, out: &mut K) -> Outcome
    ensures said { ComesTo show_promise (effects (input_effect S.left S.faults input.old input.new) (sink_effect K.written K.faults out.old out.new) unreached) result }
    ensures shown { SaysShown (status_of result) (S.left input.old) (S.left input.new) (K.written out.old) (K.written out.new) }
{
    match show_text(alloc, input) {
        Ok(shown) => write_shown(shown, out),
        Err(answer) => unshown(answer),
    }
}

/// Takes a stream, writes a JSON text of its records that stand whole in front of the part that is refused, and puts the line of
/// the status on the report.
pub fn show<S: Source, K: Sink, R: Sink>(
    alloc: Global,
    input: &mut S,
    out: &mut K,
    report: &mut R,
) -> Status
    ensures { CarriedOut show_promise (effects (input_effect S.left S.faults input.old input.new)
        (sink_effect K.written K.faults out.old out.new) (sink_effect R.written R.faults report.old report.new)) result }
{
    let outcome = shown(alloc, input, out);
    finish(report, outcome)
}
