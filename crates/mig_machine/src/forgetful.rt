ghost use Rattle.std.proofs.Common.{◌∙◌};
ghost use Rattle.std.specs.Prelude.{refl, ◌≡◌, ◌+◌, ◌/◌, ◌<◌, length, IfOk, IfSome, OnOk, OnErr};
ghost use Rattle.mig_machine.specs.Common.{pfn_in, seen_at, page_peeked, Peeked, LookedUp, LogTaken, Paused, pfns_of_words};
ghost use Rattle.mig_machine.specs.LaterMachines.{machine_itself, machine_still};
ghost use Rattle.mig_machine.specs.Forgetful.{forgetful_state, without_pfns, IsLaterForgetful, TakesMore, IsForgetfulCall};

use crate::machine::ScriptMachine;
use mig_bytes::Failed;
use mig_guest::PartKey;
use mig_guest::mig_machine_api::{Machine, Seen};
use mig_guest::pfn_set::remove;
use mig_headers::Kind;
use std::marker::Model;

/// A machine that never logs chosen frame numbers: it isn't honest.
#[derive(Drop)]
pub struct ForgetfulMachine {
    inner: ScriptMachine,
    forgets: Vec<u64>,
}

impl Model for ForgetfulMachine {
    ghost use Rattle.mig_machine.specs.Forgetful.{ForgetfulSeen, forgetful_code};

    ghost Value = { ForgetfulSeen };

    ghost coded = { forgetful_code };

    ghost view = { λ m. record { inner = m.inner; forgets = m.forgets.items } };
}

/// The numbers of the list are no longer members.
fn leave_out(words: &mut [u64], list: &[u64])
    ensures { pfns_of_words words.new ≡ without_pfns list.now (pfns_of_words words.old) }
{
    for pfn in list {
        if ((*pfn / 64) as usize) < words.len() {
            remove(words, *pfn);
        }
    }
}

impl ForgetfulMachine {
    /// The frame numbers in `forgets` never reach its log.
    pub fn new(inner: ScriptMachine, forgets: Vec<u64>) -> ForgetfulMachine
        ensures { result ≡ record { inner = inner; forgets = forgets.items } }
    {
        ForgetfulMachine { inner, forgets }
    }
}

impl Machine for ForgetfulMachine {
    ghost state = { forgetful_state };

    ghost faults = { λ m. 0 };

    ghost Later = { IsLaterForgetful };

    fn kind(&self) -> Kind {
        self.inner.kind()
    }

    fn width(&self) -> u64 {
        self.inner.width()
    }

    fn next_key(&self, after: Option<PartKey>) -> Option<PartKey> {
        self.inner.next_key(after)
    }

    fn fixed_part(&self, key: PartKey) -> Option<&[u8]> {
        self.inner.fixed_part(key)
    }

    fn part(&self, key: PartKey) -> Option<&[u8]> {
        self.inner.part(key)
    }

    /// What the machine inside has at this frame number.
    fn peek(&mut self, pfn: u64, page: &mut [u8; 4096]) -> Result<Seen, Failed>
        requires { pfn < (forgetful_state self.old).host.width }
        ensures seen { IfOk result (λ seen. seen ≡ seen_at (forgetful_state self.new).host.frames pfn) }
        ensures page { OnOk result (page.new ≡ page_peeked (forgetful_state self.new).host.frames pfn page.old) }
        ensures kept { OnErr result (page.new ≡ page.old) }
        ensures call { IsForgetfulCall (Peeked pfn) (Peeked pfn) self.old self.new result }
    {
        self.inner.peek(pfn, page)
    }

    /// The frame number that has this machine frame in the machine inside.
    fn pfn_of(&mut self, mfn: u64) -> Result<Option<u64>, Failed>
        ensures answer { IfOk result (λ pfn. pfn ≡ pfn_in (forgetful_state self.new).host.frames mfn) }
        ensures inside { IfOk result (λ pfn. IfSome pfn (λ p. p < (forgetful_state self.new).host.width)) }
        ensures call { IsForgetfulCall LookedUp LookedUp self.old self.new result }
    {
        self.inner.pfn_of(mfn)
    }

    /// Takes the log of the machine inside, and leaves the listed numbers out.
    fn take_log(&mut self, bits: &mut [u64]) -> Result<(), Failed>
        requires words { length bits.old ≡ ((forgetful_state self.old).host.width + 63) / 64 }
        requires few { length (forgetful_state self.old).history.taken < 8 }
        ensures call { IsForgetfulCall (LogTaken (pfns_of_words bits.new)) (TakesMore self.old.forgets (pfns_of_words bits.new)) self.old self.new result }
    {
        self.inner.take_log(bits)?;
        leave_out(bits, &self.forgets);
        Ok(())
    }

    /// Stops the guest of the machine inside.
    fn pause(&mut self) -> Result<(), Failed>
        ensures call { IsForgetfulCall Paused Paused self.old self.new result }
    {
        self.inner.pause()
    }

    ghost later_self = { λ m. record { inner = machine_itself m.inner; forgets = refl } };

    ghost later_on = { λ a b c p q. record { inner = machine_still a.inner b.inner c.inner p.inner q.inner; forgets = q.forgets ∙ p.forgets } };
}
