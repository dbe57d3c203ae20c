ghost use Rattle.std.specs.Prelude.{◌≡◌, IfOk};
ghost use Rattle.mig_test_machine.specs.Common.{history_of, no_history};

use crate::scripts::script;
use mig_bytes::Failed;
use mig_guest::mig_machine_api::Machine;
use mig_headers::Kind;
use mig_host::Host;
use mig_machine::ScriptMachine;
use mig_machine_script::Script;
use std::alloc::Global;
use std::process::Abort;
use std::test::Fail;

// A machine at a PV host of width 70 without frames, that runs this script.
fn at_no_frames(alloc: Global, script: Script) -> Result<ScriptMachine, Fail>
    ensures width { IfOk result (λ machine. machine.host.width ≡ 70) }
    ensures history { IfOk result (λ machine. history_of machine ≡ no_history) }
{
    let host = Host::new(alloc, Kind::Pv, 70);
    match ScriptMachine::new(alloc, host, script) {
        Ok(machine) => Ok(machine),
        Err(_) => Err("no memory".into()),
    }
}

// The same, of these lines.
pub(crate) fn started(alloc: Global, lines: &[u8]) -> Result<ScriptMachine, Fail>
    ensures width { IfOk result (λ machine. machine.host.width ≡ 70) }
    ensures history { IfOk result (λ machine. history_of machine ≡ no_history) }
{
    let script = script(alloc, lines)?;
    at_no_frames(alloc, script)
}

// The log that is taken of a machine of width 70.
pub(crate) fn log<M: Machine>(machine: &mut M) -> Result<[u64; 2], Failed>
    requires width { (M.state machine.old).host.width ≡ 70 }
    requires unread { (M.state machine.old).history ≡ no_history }
{
    let mut bits = [!0, !0];
    machine.take_log(&mut bits)?;
    Ok(bits)
}

// What a machine answers to `pfn_of` at these machine frames, one call after another.
pub(crate) fn looks_up<M: Machine>(
    rt: &impl Abort,
    machine: &mut M,
    rows: &[(u64, Result<Option<u64>, Failed>)],
) {
    for (mfn, answer) in rows {
        assert_eq!(rt; machine.pfn_of(*mfn), *answer, "{mfn}");
    }
}
