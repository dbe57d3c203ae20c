ghost use Rattle.std.specs.Prelude.{◌≡◌, IfOk};
ghost use Rattle.mig_dirtysave_parts.specs.SaveTexts.{IsContextFront, unsound_in, judged_with};

use mig_guest::CONTEXT_KEY;
use mig_guest::mig_machine_api::Machine;
use mig_headers::{HVM_CONTEXT, Unsound};
use mig_hvm::scan_context;

/// What is in the context of an HVM machine's host before its END, or the first thing that is wrong with the host.
/// `tables` is the first thing that is wrong with its tables.
pub fn judge<M: Machine>(machine: &M, tables: Option<Unsound>) -> Result<&[u8], Unsound>
    ensures front { IfOk result (λ front. IsContextFront (M.state machine.now).host.parts front.now) }
    ensures first { unsound_in result ≡ judged_with tables (M.state machine.now).host.parts }
{
    let Some(context) = machine.part(CONTEXT_KEY) else {
        return Err(Unsound::Missing(u64::from(HVM_CONTEXT)));
    };
    if let Some(unsound) = tables {
        return Err(unsound);
    }
    match scan_context(context) {
        Ok(end) => Ok(&context[..end]),
        Err(fault) => Err(Unsound::BadContext(fault)),
    }
}
