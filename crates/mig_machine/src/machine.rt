ghost use Rattle.std.specs.Prelude.{◌≡◌, ◌+◌, ◌/◌, ◌≤◌, false, length, IfOk, OnOk};
ghost use Rattle.mig_machine.specs.Common.{most_saved_width, no_history, Ran, IsValidState, no_pfns, pfns_of_words, room_for};
ghost use Rattle.mig_machine.specs.Noted.{history_in};
ghost use Rattle.mig_machine.specs.MachineSeen.{calls_of, is_paused, log_of, history_of, machine_state};
ghost use Rattle.mig_machine.specs.Exact.{RunsOn};

use crate::notes::{Notes, no_members};
use mig_bytes::Memory;
use mig_host::Host;
use mig_machine_script::{Script, room_in, run_logged};
use std::alloc::Global;
use std::marker::Model;

/// A machine whose guest is a host and the lines of a script: until it is paused, each call lets it run the lines up to the
/// next dot.
#[derive(Drop)]
pub struct ScriptMachine {
    pub(crate) host: Host,
    pub(crate) script: Script,
    /// Where the lines that are left begin.
    pub(crate) at: usize,
    /// How many calls were made up to the pause.
    pub(crate) runs: u64,
    /// How many calls were made behind it; none while it isn't paused.
    pub(crate) behind: Option<u64>,
    pub(crate) log: Vec<u64>,
    pub(crate) notes: Notes,
}

impl Model for ScriptMachine {
    ghost use Rattle.mig_machine.specs.MachineSeen.{MachineSeen, machine_code};

    ghost Value = { MachineSeen };

    ghost coded = { machine_code };

    ghost use Rattle.mig_machine.specs.MachineFields.{machine_seen, IsMachine};

    ghost view = { machine_seen };

    ghost invariant = { IsMachine };
}

/// Makes ready the room of a host for all that a script does to it, a log without frame numbers, and room for notes.
fn made_ready(alloc: Global, host: &mut Host, script: &Script) -> Result<(Vec<u64>, Notes), Memory>
    requires { host.old.host.width ≤ most_saved_width }
    ensures host { host.new.host ≡ host.old.host }
    ensures room { OnOk result (room_for script.now ≤ host.new.spare) }
    ensures empty { IfOk result (λ r. pfns_of_words r.0.items ≡ no_pfns) }
    ensures log_size { IfOk result (λ r. length r.0.items ≡ (host.old.host.width + 63) / 64) }
    ensures history { IfOk result (λ r. history_in r.1 ≡ no_history) }
    ensures notes_size { IfOk result (λ r. length r.1.read.items ≡ (host.old.host.width + 63) / 64) }
{
    let width = host.width();
    host.reserve(room_in(script))?;
    let log = no_members(alloc, width)?;
    let notes = Notes::new(alloc, width)?;
    Ok((log, notes))
}

impl ScriptMachine {
    /// A machine at this host, which was asked nothing yet. It takes all memory that later calls need.
    pub fn new(alloc: Global, host: Host, script: Script) -> Result<ScriptMachine, Memory>
        requires narrow { host.host.width ≤ most_saved_width }
        ensures host { IfOk result (λ m. m.host ≡ host.host) }
        ensures lines { IfOk result (λ m. m.lines ≡ script) }
        ensures calls { IfOk result (λ m. calls_of m ≡ 0) }
        ensures unpaused { IfOk result (λ m. is_paused m ≡ false) }
        ensures log { IfOk result (λ m. log_of m ≡ no_pfns) }
        ensures history { IfOk result (λ m. history_of m ≡ no_history) }
    {
        let mut host = host;
        let (log, notes) = made_ready(alloc, &mut host, &script)?;
        Ok(ScriptMachine {
            host,
            script,
            at: 0,
            runs: 0,
            behind: None,
            log,
            notes,
        })
    }

    /// The host as it is now.
    pub fn host(&self) -> &Host
        ensures { result.now.host ≡ self.now.host }
    {
        &self.host
    }

    /// Counts a call, and lets the guest run the lines of this call, unless it is paused.
    pub(crate) fn run(&mut self)
        ensures ran { Ran (machine_state self.old) (machine_state self.new) (log_of self.new) }
        ensures later { RunsOn self.old self.new }
        ensures valid { IsValidState (machine_state self.new) }
        ensures paused { is_paused self.new ≡ is_paused self.old }
        ensures noted { self.new.noted ≡ self.old.noted }
    {
        let _width = self.host.width();
        let _lines = self.script.len();
        if let Some(behind) = self.behind {
            self.behind = Some(behind.saturating_add(1));
            return;
        }
        self.runs = self.runs.saturating_add(1);
        self.at = run_logged(&mut self.host, &self.script, self.at, &mut self.log);
        let _now = self.host.width();
    }
}
