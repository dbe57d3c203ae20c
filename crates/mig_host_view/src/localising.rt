ghost use Rattle.std.specs.Prelude.{◌≡◌, ◌<◌, ◌^◌};
ghost use Rattle.mig_pvtables.specs.P2mPages.{p2m_page as page_of};
ghost use Rattle.mig_guest.specs.Formed.{IsFormed};
ghost use Rattle.mig_host_view.specs.Common.{renamed_table};
ghost use Rattle.mig_host_view.specs.Localised.{localised};

use crate::renaming::Renaming;
use mig_guest::Guest;
use mig_headers::Kind;
use mig_pvtables::{
    Frames, P2mStep, TableStep, ToMachine, each_context, each_p2m_frame, each_table,
    localise_table, p2m_page,
};

/// Machine frames are in place of frame numbers in tables, and each P2M frame holds those of its range.
#[derive(Drop)]
struct Localising<'a, F> {
    frames: &'a F,
}

impl<F: Frames> TableStep for Localising<'_, F> {
    ghost tables = { λ step. renamed_table (F.mfns step.frames.now) };

    fn change_table(&self, page: &mut [u8; 4096], level: u8) {
        localise_table(page, level, self.frames);
    }
}

impl<F: Frames> P2mStep for Localising<'_, F> {
    ghost pages = { λ step. page_of (F.mfns step.frames.now) };

    ghost can_write = { λ _ index. index < 2 ^ 43 };

    fn write_page(&self, page: &mut [u8; 4096], index: u64) {
        p2m_page(index, self.frames, page);
    }
}

/// Brings a guest to the form in which it is in a machine. Tables and contexts of vCPUs name machine frames, and each
/// P2M frame that has a page holds those of its range. An HVM guest stays. Takes no memory.
pub fn localise_guest<F: Frames>(guest: &mut Guest, frames: &F)
    requires { IsFormed guest.old }
    ensures { guest.new ≡ localised (F.mfns frames.now) guest.old }
{
    match guest.kind() {
        Kind::Hvm => {}
        Kind::Pv => {
            let step = Localising { frames };
            each_table(guest, &step);
            each_p2m_frame(guest, &step);
            frames.one_to_one();
            each_context(
                guest,
                &Renaming {
                    names: &ToMachine { frames },
                },
            );
        }
    }
}
