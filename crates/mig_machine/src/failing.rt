ghost use Rattle.std.proofs.Common.{◌∙◌, le_refl, le_trans};
ghost use Rattle.std.specs.Prelude.{refl, ◌≡◌, ◌+◌, ◌/◌, ◌<◌, ◌↔◌, length, IsTrue, IsErr, IfOk, IfSome, OnOk, OnErr};
ghost use Rattle.mig_machine.specs.Common.{FaultHasCause, counted_up, IsListed, pfn_in, seen_at, page_peeked, Peeked, LookedUp, LogTaken, Paused, IsValidState, pfns_of_words};
ghost use Rattle.mig_machine.specs.Failing.{failing_state, IsLaterFailing, IsFailingCall};
ghost use Rattle.mig_machine.specs.LaterMachines.{machine_itself, machine_still};

use crate::machine::ScriptMachine;
use mig_bytes::Failed;
use mig_guest::PartKey;
use mig_guest::mig_machine_api::{Machine, Seen};
use mig_headers::Kind;
use std::marker::Model;

/// A machine whose chosen calls fail.
#[derive(Drop)]
pub struct FailingMachine {
    inner: ScriptMachine,
    failing: Vec<u64>,
    number: u64,
    faults: u64,
}

impl Model for FailingMachine {
    ghost use Rattle.mig_machine.specs.Failing.{FailingSeen, failing_code};

    ghost Value = { FailingSeen };

    ghost coded = { failing_code };

    ghost view = { λ m. record { inner = m.inner; failing = m.failing.items; number = m.number; faults = m.faults } };
}

/// Whether the call with this number fails because of the list. The last number stands for all later calls.
fn is_listed(failing: &[u64], number: u64) -> bool
    ensures { IsTrue result ↔ IsListed failing.now number }
{
    number < u64::MAX && failing.contains(&number)
}

impl FailingMachine {
    /// Calls of `peek`, `pfn_of`, `take_log` and `pause` are numbered together, from 0; call number i fails exactly where i
    /// stands in `failing`.
    pub fn new(inner: ScriptMachine, failing: Vec<u64>) -> FailingMachine
        ensures { result ≡ record { inner = inner; failing = failing.items; number = 0; faults = 0 } }
    {
        FailingMachine {
            inner,
            failing,
            number: 0,
            faults: 0,
        }
    }

    /// Counts a call, and fails where its number is listed.
    #[tactic(auto, using(crate::specs::LaterMachines::machine_itself))]
    fn count(&mut self) -> Result<(), Failed>
        ensures listed { IsErr result ↔ IsListed self.old.failing self.old.number }
        ensures failed { OnErr result (self.new ≡ record self.old { number = counted_up self.old.number; faults = counted_up self.old.faults }) }
        ensures passed { OnOk result (self.new ≡ record self.old { number = counted_up self.old.number }) }
        ensures valid { IsValidState (failing_state self.new) }
        ensures later { IsLaterFailing self.old self.new }
        ensures cause { FaultHasCause self.old.faults self.new.faults result }
    {
        let _width = self.inner.width();
        let call = self.number;
        self.number = call.saturating_add(1);
        if is_listed(&self.failing, call) {
            self.faults = self.faults.saturating_add(1);
            return Err(Failed);
        }
        Ok(())
    }
}

impl Machine for FailingMachine {
    ghost state = { failing_state };

    ghost faults = { λ m. m.faults };

    ghost Later = { IsLaterFailing };

    fn kind(&self) -> Kind {
        self.inner.kind()
    }

    fn width(&self) -> u64 {
        self.inner.width()
    }

    fn next_key(&self, after: Option<PartKey>) -> Option<PartKey> {
        self.inner.next_key(after)
    }

    fn fixed_part(&self, key: PartKey) -> Option<&[u8]> {
        self.inner.fixed_part(key)
    }

    fn part(&self, key: PartKey) -> Option<&[u8]> {
        self.inner.part(key)
    }

    /// What the machine inside has at this frame number, or the call fails.
    fn peek(&mut self, pfn: u64, page: &mut [u8; 4096]) -> Result<Seen, Failed>
        requires { pfn < (failing_state self.old).host.width }
        ensures seen { IfOk result (λ seen. seen ≡ seen_at (failing_state self.new).host.frames pfn) }
        ensures page { OnOk result (page.new ≡ page_peeked (failing_state self.new).host.frames pfn page.old) }
        ensures kept { OnErr result (page.new ≡ page.old) }
        ensures call { IsFailingCall (Peeked pfn) self.old self.new result }
    {
        self.count()?;
        self.inner.peek(pfn, page)
    }

    /// The frame number that has this machine frame in the machine inside, or the call fails.
    fn pfn_of(&mut self, mfn: u64) -> Result<Option<u64>, Failed>
        ensures answer { IfOk result (λ pfn. pfn ≡ pfn_in (failing_state self.new).host.frames mfn) }
        ensures inside { IfOk result (λ pfn. IfSome pfn (λ p. p < (failing_state self.new).host.width)) }
        ensures call { IsFailingCall LookedUp self.old self.new result }
    {
        self.count()?;
        self.inner.pfn_of(mfn)
    }

    /// Takes the log of the machine inside, or fails.
    fn take_log(&mut self, bits: &mut [u64]) -> Result<(), Failed>
        requires words { length bits.old ≡ ((failing_state self.old).host.width + 63) / 64 }
        requires few { length (failing_state self.old).history.taken < 8 }
        ensures call { IsFailingCall (LogTaken (pfns_of_words bits.new)) self.old self.new result }
        ensures untouched { OnErr result (bits.new ≡ bits.old) }
    {
        self.count()?;
        self.inner.take_log(bits)
    }

    /// Stops the guest of the machine inside, or fails.
    fn pause(&mut self) -> Result<(), Failed>
        ensures call { IsFailingCall Paused self.old self.new result }
    {
        self.count()?;
        self.inner.pause()
    }

    ghost later_self = { λ m. record { inner = machine_itself m.inner; failing = refl; number = le_refl m.number; faults = le_refl m.faults } };

    ghost later_on = { λ a b c p q. record { inner = machine_still a.inner b.inner c.inner p.inner q.inner; failing = q.failing ∙ p.failing; number = le_trans p.number q.number; faults = le_trans p.faults q.faults } };
}
