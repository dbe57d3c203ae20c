ghost use Rattle.std.specs.Prelude.{◌≡◌, ℕ, ◌+◌, ◌/◌, ◌<◌, ◌≤◌, length, OnOk, OnErr, IfOk, IfSome, None, if◌then◌else◌};
ghost use Rattle.mig_guest.specs.Common.{option_copied};
ghost use Rattle.std.specs.FinMap as maps;
ghost use Rattle.mig_bytes.specs.Faults.{FaultHasCause};
ghost use Rattle.mig_guest.specs.declared.part_key.PartKey.{PartKey};
ghost use Rattle.mig_guest.specs.Hosts.{most_saved_width, pfn_in};
ghost use Rattle.mig_guest.specs.Parts.{NextKey};
ghost use Rattle.mig_guest.specs.PartCodes.{is_fixed};
ghost use Rattle.mig_guest.specs.MachineCalls.{seen_at, page_peeked, Peeked, LookedUp, LogTaken, Paused};
ghost use Rattle.mig_guest.specs.MachineStates.{MachineState, IsValidState, Stays};
ghost use Rattle.mig_guest.specs.Pfns.{pfns_of_words};

use crate::part_key::PartKey;
use mig_bytes::Failed;
use mig_headers::Kind;
use mig_pagetypes::PageType;

/// What a machine has at a frame number.
#[derive(Clone, Copy, Debug, PartialEq, Eq)]
pub enum Seen {
    /// No frame.
    Absent,
    /// A frame of this type.
    Frame(PageType),
}

/// A machine whose guest may run on while it is looked at: until it is paused, each call with `&mut self` may let the guest
/// run before it answers. A call that fails is in no history.
pub trait Machine {
    /// The host, the log, whether it is paused, whether it is honest, and what was asked of it.
    ghost state: { Self → MachineState };

    /// How often it has failed; the count never falls.
    ghost faults: { Self → ℕ };

    /// The second machine is the first one later on.
    ghost Later: { Self → Self → Type 0 };

    /// Which kind of guest runs on it.
    fn kind(&self) -> Kind
        ensures { result ≡ (state self.now).host.kind };

    /// One more than the greatest possible frame number. The host is valid, and the log names numbers below the width alone.
    fn width(&self) -> u64
        ensures value { result ≡ (state self.now).host.width }
        ensures bound { result ≤ most_saved_width }
        ensures valid { IsValidState (state self.now) };

    /// The least part key above `after`, or the least one.
    fn next_key(&self, after: Option<PartKey>) -> Option<PartKey>
        ensures { NextKey (state self.now).host.parts after result };

    /// The bytes of a part that never changes; none where this isn't the key of such a part that is there.
    fn fixed_part(&self, key: PartKey) -> Option<&[u8]>
        ensures { option_copied result ≡ (if is_fixed key.code then maps.get (state self.now).host.parts key else None) };

    /// The bytes of a part as they are now; none where it isn't there.
    fn part(&self, key: PartKey) -> Option<&[u8]>
        ensures { option_copied result ≡ maps.get (state self.now).host.parts key };

    /// What there is at this frame number when the call ends; the raw page is copied, where there is one.
    fn peek(&mut self, pfn: u64, page: &mut [u8; 4096]) -> Result<Seen, Failed>
        requires { pfn < (state self.old).host.width }
        ensures seen { IfOk result (λ seen. seen ≡ seen_at (state self.new).host.frames pfn) }
        ensures page { OnOk result (page.new ≡ page_peeked (state self.new).host.frames pfn page.old) }
        ensures kept { OnErr result (page.new ≡ page.old) }
        ensures ok { OnOk result (Peeked pfn (state self.old) (state self.new)) }
        ensures err { OnErr result (Stays (state self.old) (state self.new)) }
        ensures valid { IsValidState (state self.new) }
        ensures later { Later self.old self.new }
        ensures cause { FaultHasCause (faults self.old) (faults self.new) result };

    /// The frame number that has this machine frame when the call ends.
    fn pfn_of(&mut self, mfn: u64) -> Result<Option<u64>, Failed>
        ensures answer { IfOk result (λ pfn. pfn ≡ pfn_in (state self.new).host.frames mfn) }
        ensures inside { IfOk result (λ pfn. IfSome pfn (λ p. p < (state self.new).host.width)) }
        ensures ok { OnOk result (LookedUp (state self.old) (state self.new)) }
        ensures err { OnErr result (Stays (state self.old) (state self.new)) }
        ensures valid { IsValidState (state self.new) }
        ensures later { Later self.old self.new }
        ensures cause { FaultHasCause (faults self.old) (faults self.new) result };

    /// Takes the log: bit p mod 64 of word p / 64 tells whether p was in it. It is then empty.
    fn take_log(&mut self, bits: &mut [u64]) -> Result<(), Failed>
        requires words { length bits.old ≡ ((state self.old).host.width + 63) / 64 }
        requires few { length (state self.old).history.taken < 8 }
        ensures ok { OnOk result (LogTaken (pfns_of_words bits.new) (state self.old) (state self.new)) }
        ensures err { OnErr result (Stays (state self.old) (state self.new)) }
        ensures valid { IsValidState (state self.new) }
        ensures later { Later self.old self.new }
        ensures cause { FaultHasCause (faults self.old) (faults self.new) result };

    /// Stops the guest: from then on the host stays as it is.
    fn pause(&mut self) -> Result<(), Failed>
        ensures ok { OnOk result (Paused (state self.old) (state self.new)) }
        ensures err { OnErr result (Stays (state self.old) (state self.new)) }
        ensures valid { IsValidState (state self.new) }
        ensures later { Later self.old self.new }
        ensures cause { FaultHasCause (faults self.old) (faults self.new) result };

    /// Each machine is later than itself.
    ghost later_self: { (machine : Self) → Later machine machine };

    /// What is later than something later is later.
    ghost later_on: { (a b c : Self) → Later a b → Later b c → Later a c };
}
