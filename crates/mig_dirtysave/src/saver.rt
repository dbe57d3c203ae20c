ghost use Rattle.std.specs.Prelude.{◌≡◌, false, length, IfOk};
ghost use Rattle.mig_dirtysave.specs.Common.{Pv, IsFormed, no_history, FaultsHaveCauses, HoldsParts, is_early, is_setting};
ghost use Rattle.mig_dirtysave.specs.Saver.{PreparedFor};
ghost use Rattle.mig_dirtysave.specs.SaveAnswers.{SaveEnds};
ghost use Rattle.mig_dirtysave.specs.declared.answer.SaveAnswer.TheVariants.{MachineFault, WriteFault};

use crate::answer::{SaveAnswer, SaveReport};
use crate::closing::close;
use crate::judging::host_is_valid;
use mig_bytes::{Memory, Sink};
use mig_dirtysave_parts::{copy_parts, make_marks, write_before};
use mig_dirtysave_rounds::{Room, send_frames};
use mig_guest::Guest;
use mig_guest::mig_machine_api::Machine;
use mig_libxl::{write_closing, write_opening};
use std::alloc::Global;
use std::marker::Model;

/// What a save needs, made while there may still be no memory. It has the parts of the machine's host that are before
/// the frames, room for those behind them, marks for judging P2M frames, and room for the rounds.
#[derive(Drop)]
pub struct Saver {
    early: Guest,
    settings: Guest,
    marks: Vec<Option<bool>>,
    room: Room,
}

impl Model for Saver {
    ghost use Rattle.std.specs.Prelude.{◌≡◌, length};
    ghost use Rattle.mig_headers.specs.declared.kind.Kind.TheVariants.{Pv};
    ghost use Rattle.mig_guest.specs.Formed.{IsFormed};
    ghost use Rattle.mig_dirtysave_parts.specs.KeptParts.{HoldsParts, is_early, is_setting};
    ghost use Rattle.mig_dirtysave.specs.Saver.{SaverOf, saver_code};

    ghost Value = { SaverOf };

    ghost coded = { saver_code };

    ghost view = { λ s. record { kind = s.early.kind; width = s.room; early = s.early.parts; settings = s.settings.parts } };

    ghost invariant = { λ s. IsFormed s.early × HoldsParts is_early s.early.kind s.room s.early × HoldsParts is_setting s.early.kind s.room s.settings × (s.early.kind ≡ Pv → length s.marks.items ≡ s.room) };
}

impl Saver {
    /// Makes all that `run` needs, for a machine as it is now.
    pub fn prepare<M: Machine>(alloc: Global, machine: &M) -> Result<Saver, Memory>
        ensures { IfOk result (λ saver. PreparedFor saver (M.state machine.now).host) }
    {
        let room = Room::new(alloc, machine.width())?;
        let (early, settings) = copy_parts(alloc, machine)?;
        let marks = make_marks(alloc, machine)?;
        Ok(Saver {
            early,
            settings,
            marks,
            room,
        })
    }

    /// Saves the machine: sends its frames while its guest runs, pauses it, judges its host, and ends the stream where
    /// nothing is wrong with it. It takes no memory.
    pub fn run<M: Machine, K: Sink>(
        self,
        machine: &mut M,
        sink: &mut K,
    ) -> Result<SaveReport, SaveAnswer>
        requires made { PreparedFor self (M.state machine.old).host }
        requires unpaused { (M.state machine.old).paused ≡ false }
        requires unread { (M.state machine.old).history ≡ no_history }
        ensures ends { SaveEnds (M.state machine.old) (M.state machine.new) (K.written sink.old) (K.written sink.new) result }
        ensures later { M.Later machine.old machine.new }
        ensures faults { FaultsHaveCauses MachineFault WriteFault (M.faults machine.old) (M.faults machine.new) (K.faults sink.old) (K.faults sink.new) result }
    {
        let Saver {
            early,
            mut settings,
            mut marks,
            room,
        } = self;
        save(machine, sink, &early, &mut settings, &mut marks, room)
    }
}

/// Does what `run` does with the parts of a saver, which are lent: a proof considers the drop of what a function holds wherever
/// it may end.
fn save<M: Machine, K: Sink>(
    machine: &mut M,
    sink: &mut K,
    early: &Guest,
    settings: &mut Guest,
    marks: &mut [Option<bool>],
    room: Room,
) -> Result<SaveReport, SaveAnswer>
    requires made { PreparedFor (record { kind = early.now.kind; width = room; early = early.now.parts; settings = settings.old.parts }) (M.state machine.old).host }
    requires formed { IsFormed early.now }
    requires early { HoldsParts is_early early.now.kind room early.now }
    requires settings { HoldsParts is_setting early.now.kind room settings.old }
    requires marks { early.now.kind ≡ Pv → length marks.old ≡ room }
    requires unpaused { (M.state machine.old).paused ≡ false }
    requires unread { (M.state machine.old).history ≡ no_history }
    ensures ends { SaveEnds (M.state machine.old) (M.state machine.new) (K.written sink.old) (K.written sink.new) result }
    ensures later { M.Later machine.old machine.new }
    ensures faults { FaultsHaveCauses MachineFault WriteFault (M.faults machine.old) (M.faults machine.new) (K.faults sink.old) (K.faults sink.new) result }
{
    write_opening(sink, settings)?;
    write_before(sink, early)?;
    host_is_valid(machine);
    let sent = send_frames(machine, sink, room)?;
    host_is_valid(machine);
    close(machine, sink, settings, marks, &sent)?;
    write_closing(sink, settings)?;
    Ok(SaveReport {
        rounds: sent.rounds,
        entries: sent.entries,
    })
}
