ghost use Rattle.std.specs.Prelude.{◌≡◌, false, None, IfOk, string_bytes};
ghost use Rattle.mig_show.specs.Common.{Data, view};
ghost use Rattle.mig_show.specs.Fronts.{of_form};
ghost use Rattle.mig_show.specs.Seeing.{ended_by};
ghost use Rattle.mig_show.specs.Shows.{Shows, RisesOnShow, tree_line, front_tree};

use crate::line::stream_line;
use crate::seen::Seen;
use crate::tree::tree_of;
use mig_bytes::Source;
use mig_headers::{Cause, Place};
use mig_relay::{Relay, RelayAnswer, Step};
use serde_json::Value;
use std::alloc::Global;

/// What is shown of a stream.
#[derive(Drop)]
pub struct Shown {
    /// The JSON object that `tree_of` describes.
    pub tree: Value,
    /// The place and the cause, where the stream is refused.
    pub refused: Option<(Place, Cause)>,
}

/// The same as text.
#[derive(Drop)]
pub struct ShownText {
    /// The JSON text without spaces, and a line feed.
    pub line: String,
    /// The place and the cause, where the stream is refused.
    pub refused: Option<(Place, Cause)>,
}

/// Why nothing is shown.
#[derive(Clone, Copy, Debug, PartialEq, Eq)]
pub enum ShowAnswer {
    /// A read of the source failed.
    ReadFault,
    /// No memory was found.
    Memory,
}

/// What ends a stream before its end: a refusal is shown, and nothing that failed. No write fails here.
fn ended(answer: RelayAnswer) -> Result<Option<(Place, Cause)>, ShowAnswer>
    ensures { result ≡ ended_by answer }
{
    match answer {
        RelayAnswer::Refused(place, cause) => Ok(Some((place, cause))),
        RelayAnswer::ReadFault => Err(ShowAnswer::ReadFault),
        RelayAnswer::WriteFault | RelayAnswer::Memory => Err(ShowAnswer::Memory),
    }
}

/// Takes a stream up to its end, or up to the end of the part that is refused, and sees what is whole in front of that.
fn see_all<S: Source>(
    alloc: Global,
    seen: &mut Seen,
    src: &mut S,
) -> Result<Option<(Place, Cause)>, ShowAnswer>
    requires front { seen.old.front ≡ of_form false }
    requires hand { seen.old.hand ≡ None }
    ensures seen { IfOk result (λ refused. Shows (S.left src.old) (S.left src.new) refused (front_tree seen.new.front refused)) }
    ensures faults { RisesOnShow (S.faults src.old) (S.faults src.new) result }
{
    let mut relay = Relay::new(alloc);
    for _ in 0..u64::MAX {
        let step = match relay.look(src) {
            Ok(step) => step,
            Err(answer) => return ended(answer),
        };
        if step == Step::Done {
            return Ok(None);
        }
        seen.take(step, relay.words());
        if let Err(_) = seen.end(relay.is_in_record()) {
            return Err(ShowAnswer::Memory);
        }
    }
    Err(ShowAnswer::Memory)
}

/// Takes a stream up to its end, or up to the end of the part that is refused. Shows its records that are whole in
/// front of that part, as `tree_of` describes.
pub fn show<S: Source>(alloc: Global, src: &mut S) -> Result<Shown, ShowAnswer>
    ensures shown { IfOk result (λ shown. Shows (S.left src.old) (S.left src.new) shown.refused (view shown.tree)) }
    ensures faults { RisesOnShow (S.faults src.old) (S.faults src.new) result }
{
    let mut seen = Seen::new(alloc);
    let refused = see_all(alloc, &mut seen, src)?;
    let tree = tree_of(
        alloc,
        seen.wrapper,
        seen.version,
        seen.kind,
        &seen.records,
        refused,
    );
    match tree {
        Ok(tree) => Ok(Shown { tree, refused }),
        Err(_) => Err(ShowAnswer::Memory),
    }
}

/// The same as `show`, as a line of text. The tree isn't made: the text takes less memory.
pub fn show_text<S: Source>(alloc: Global, src: &mut S) -> Result<ShownText, ShowAnswer>
    ensures shown { IfOk result (λ shown. (tree : Data) × Shows (S.left src.old) (S.left src.new) shown.refused tree × (string_bytes shown.line ≡ tree_line tree)) }
    ensures faults { RisesOnShow (S.faults src.old) (S.faults src.new) result }
{
    let mut seen = Seen::new(alloc);
    let refused = see_all(alloc, &mut seen, src)?;
    match stream_line(alloc, &seen, refused) {
        Ok(line) => Ok(ShownText { line, refused }),
        Err(_) => Err(ShowAnswer::Memory),
    }
}
