ghost use Rattle.std.specs.Prelude.{refl, ◌≡◌, [], ◌∷◌, ◌++◌, ℕ, ◌≤◌, OnOk, OnErr};
ghost use Rattle.std.proofs.Common.{◌∙◌};
ghost use Rattle.mig_bytes.specs.Faults.{FaultHasCause};
ghost use Rattle.mig_test_machine.specs.Common.{IsValid, most_saved_width, pfns_of_words, no_pfns};
ghost use Rattle.mig_test_machine.specs.Standing.{asked, standing};

use mig_bytes::Failed;
use mig_guest::mig_machine_api::{Machine, Seen};
use mig_guest::{PartKey, is_fixed};
use mig_headers::Kind;
use mig_host::Host;
use mig_pvtables::Frames;
use std::alloc::Global;

/// A call that was answered Ok.
#[derive(Clone, Copy)]
pub enum Call {
    Peek(u64),
    LookUp,
    Log,
    Pause,
}

/// A machine whose guest never runs.
#[derive(Drop)]
pub struct StandingMachine {
    host: Host,
    calls: Vec<Call>,
    faults: u64,
    ghost narrow: { host.host.width ≤ most_saved_width },
}

/// No number is in the log.
fn clear(bits: &mut [u64])
    ensures { pfns_of_words bits.new ≡ no_pfns }
{
    bits.fill(0);
}

impl StandingMachine {
    /// It stands at this host, and nothing was asked of it yet.
    pub fn new(alloc: Global, host: Host) -> StandingMachine
        requires narrow { host.host.width ≤ most_saved_width }
        ensures host { result.host ≡ host }
        ensures calls { result.calls.items ≡ [] }
    {
        StandingMachine {
            host,
            calls: Vec::new(alloc),
            faults: 0,
        }
    }

    /// Keeps the call, or fails where there is no memory for it.
    fn keep(&mut self, call: Call) -> Result<(), Failed>
        ensures host { self.new.host ≡ self.old.host }
        ensures valid { IsValid self.new.host.host }
        ensures ok { OnOk result (self.new.calls.items ≡ self.old.calls.items ++ call ∷ []) }
        ensures err { OnErr result (self.new.calls.items ≡ self.old.calls.items) }
        ensures cause { FaultHasCause self.old.faults self.new.faults result }
    {
        let _width = self.host.width();
        match self.calls.push(call) {
            Ok(()) => Ok(()),
            Err(_) => {
                self.faults = self.faults.saturating_add(1);
                Err(Failed)
            }
        }
    }
}

#[tactic(auto, using(crate::proofs::StandingStates::stands))]
impl Machine for StandingMachine {
    ghost state = { λ m. standing m.host.host (asked m.calls.items) };

    ghost faults = { λ m. m.faults };

    ghost Later = { λ a b. b.host.host ≡ a.host.host };

    fn kind(&self) -> Kind {
        self.host.kind()
    }

    fn width(&self) -> u64 {
        self.host.width()
    }

    fn next_key(&self, after: Option<PartKey>) -> Option<PartKey> {
        self.host.next_part(after)
    }

    fn fixed_part(&self, key: PartKey) -> Option<&[u8]> {
        if is_fixed(key.code) {
            self.host.part(key)
        } else {
            None
        }
    }

    fn part(&self, key: PartKey) -> Option<&[u8]> {
        self.host.part(key)
    }

    fn peek(&mut self, pfn: u64, page: &mut [u8; 4096]) -> Result<Seen, Failed> {
        self.keep(Call::Peek(pfn))?;
        let Some(kind) = self.host.frame(pfn) else {
            return Ok(Seen::Absent);
        };
        if let Some(raw) = self.host.page(pfn) {
            *page = *raw;
        }
        Ok(Seen::Frame(kind))
    }

    fn pfn_of(&mut self, mfn: u64) -> Result<Option<u64>, Failed> {
        self.keep(Call::LookUp)?;
        Ok(self.host.pfn_of(mfn))
    }

    fn take_log(&mut self, bits: &mut [u64]) -> Result<(), Failed> {
        self.keep(Call::Log)?;
        clear(bits);
        Ok(())
    }

    fn pause(&mut self) -> Result<(), Failed> {
        self.keep(Call::Pause)
    }

    ghost later_self = { λ m. refl };

    ghost later_on = { λ a b c h k. k ∙ h };
}
