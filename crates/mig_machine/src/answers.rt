ghost use Rattle.std.specs.Prelude.{◌≡◌, ℕ, ◌+◌, ◌/◌, ◌≤◌, length};
ghost use Rattle.mig_machine.specs.Common.{seen_at, page_peeked, pfns_of_words, no_pfns};
ghost use Rattle.mig_machine.specs.MachineSeen.{machine_state};
ghost use Rattle.mig_machine.specs.Exact.{IsLaterMachine};
ghost use Rattle.mig_machine.specs.LaterMachines.{machine_itself, machine_still};

use crate::machine::ScriptMachine;
use mig_bytes::Failed;
use mig_guest::mig_machine_api::{Machine, Seen};
use mig_guest::pfn_set::clear;
use mig_guest::{PartKey, is_fixed};
use mig_headers::Kind;
use mig_host::Host;
use mig_pvtables::Frames;

/// What the host has at a frame number; the raw page is copied, where there is one.
fn look(host: &Host, pfn: u64, page: &mut [u8; 4096]) -> Seen
    ensures seen { result ≡ seen_at host.now.host.frames pfn }
    ensures page { page.new ≡ page_peeked host.now.host.frames pfn page.old }
{
    let Some(kind) = host.frame(pfn) else {
        return Seen::Absent;
    };
    if let Some(raw) = host.page(pfn) {
        *page = *raw;
    }
    Seen::Frame(kind)
}

/// The words of a log go to the bits, and then nothing is in it.
fn hand_over(log: &mut Vec<u64>, bits: &mut [u64])
    requires { length bits.old ≡ length log.old.items }
    ensures bits { bits.new ≡ log.old.items }
    ensures empty { pfns_of_words log.new.items ≡ no_pfns }
    ensures size { length log.new.items ≡ length log.old.items }
{
    bits.copy_from_slice(log);
    clear(log);
}

impl Machine for ScriptMachine {
    ghost state = { machine_state };

    ghost faults = { λ m. 0 };

    ghost Later = { IsLaterMachine };

    fn kind(&self) -> Kind {
        self.host.kind()
    }

    fn width(&self) -> u64 {
        self.host.width()
    }

    fn next_key(&self, after: Option<PartKey>) -> Option<PartKey> {
        self.host.next_part(after)
    }

    fn fixed_part(&self, key: PartKey) -> Option<&[u8]> {
        if is_fixed(key.code) {
            self.host.part(key)
        } else {
            None
        }
    }

    fn part(&self, key: PartKey) -> Option<&[u8]> {
        self.host.part(key)
    }

    fn peek(&mut self, pfn: u64, page: &mut [u8; 4096]) -> Result<Seen, Failed> {
        self.run();
        self.notes.note_read(pfn);
        Ok(look(&self.host, pfn, page))
    }

    fn pfn_of(&mut self, mfn: u64) -> Result<Option<u64>, Failed> {
        self.run();
        self.notes.note_call();
        Ok(self.host.pfn_of(mfn))
    }

    fn take_log(&mut self, bits: &mut [u64]) -> Result<(), Failed> {
        self.run();
        self.notes.note_log(&self.log, self.behind.is_some());
        hand_over(&mut self.log, bits);
        Ok(())
    }

    fn pause(&mut self) -> Result<(), Failed> {
        self.run();
        self.notes.note_call();
        self.behind = Some(self.behind.unwrap_or(0));
        Ok(())
    }

    ghost later_self = { machine_itself };

    ghost later_on = { machine_still };
}
