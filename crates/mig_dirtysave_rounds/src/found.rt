ghost use Rattle.std.specs.Prelude.{◌≡◌, Some};
ghost use Rattle.mig_dirtysave_rounds.specs.Sends.{or_first, place};

use mig_bytes::{Failed, WriteFailed};
use mig_pagetypes::PageType;

/// The machine or the sink failed.
#[derive(Clone, Copy, Debug, PartialEq, Eq)]
pub enum SendFault {
    /// The machine failed.
    MachineFault,
    /// The sink failed.
    WriteFault,
}

impl From<Failed> for SendFault {
    ghost use Rattle.mig_dirtysave_rounds.specs.declared.found.SendFault.TheVariants.{MachineFault};

    ghost from_gives = { λ _ fault. fault ≡ MachineFault };

    fn from(_fault: Failed) -> SendFault {
        SendFault::MachineFault
    }
}

impl From<WriteFailed> for SendFault {
    ghost use Rattle.mig_dirtysave_rounds.specs.declared.found.SendFault.TheVariants.{WriteFault};

    ghost from_gives = { λ _ fault. fault ≡ WriteFault };

    fn from(_fault: WriteFailed) -> SendFault {
        SendFault::WriteFault
    }
}

/// What was found at a frame number.
#[derive(Clone, Copy, Debug, PartialEq, Eq)]
pub(crate) enum Found {
    /// No frame.
    Gone,
    /// A frame of this type, whose page was left as a stream has it.
    Shows(PageType),
    /// A table of this type, and the slot of its first superpage.
    Superpage(PageType, usize),
    /// A table of this type without a superpage, and the slot of its first entry whose machine frame has no frame number.
    NoFrame(PageType, usize),
}

/// The first tables that no stream can have: each by its frame number and slot.
#[derive(Clone, Copy, Debug, PartialEq, Eq)]
pub(crate) struct Worst {
    pub(crate) superpage: Option<(u64, usize)>,
    pub(crate) lost: Option<(u64, usize)>,
}

impl Worst {
    ghost use Rattle.std.specs.Prelude.{◌≡◌};
    ghost use Rattle.mig_dirtysave_rounds.specs.Sends.{or_first, place, found_super, found_lost};

    /// With what was found at one frame number more.
    pub(crate) fn with(self, pfn: u64, found: Found) -> Worst
        ensures superpage { result.superpage ≡ or_first self.superpage (place pfn (found_super found)) }
        ensures lost { result.lost ≡ or_first self.lost (place pfn (found_lost found)) }
    {
        match found {
            Found::Superpage(_, slot) => Worst {
                superpage: first_of(self.superpage, pfn, slot),
                lost: self.lost,
            },
            Found::NoFrame(_, slot) => Worst {
                superpage: self.superpage,
                lost: first_of(self.lost, pfn, slot),
            },
            Found::Gone | Found::Shows(_) => self,
        }
    }
}

/// What was found before, or else this place.
fn first_of(before: Option<(u64, usize)>, pfn: u64, slot: usize) -> Option<(u64, usize)>
    ensures { result ≡ or_first before (place pfn (Some slot)) }
{
    match before {
        Some(at) => Some(at),
        None => Some((pfn, slot)),
    }
}
