ghost use Rattle.std.specs.Prelude.{◌≡◌, ◌<◌, ◌^◌};
ghost use Rattle.mig_pvtables.specs.P2mPages.{p2m_page as page_of};

use crate::frames::Frames;
use crate::table::SLOTS;
use mig_bytes::put_u64_le;

/// What a slot of a P2M frame holds where its frame number has no machine frame.
const NONE: u64 = 0xFFFF_FFFF_FFFF_FFFF;

/// Writes P2M frame `k`: slot s holds the machine frame of frame number 512k + s, or all ones where that has none.
pub fn p2m_page<F: Frames>(k: u64, frames: &F, page: &mut [u8; 4096])
    requires { k < 2 ^ 43 }
    ensures { page.new ≡ page_of (F.mfns frames.now) k }
{
    for slot in 0..SLOTS {
        match frames.mfn_of(512 * k + slot as u64) {
            Some(mfn) => put_u64_le(page, 8 * slot, mfn),
            None => put_u64_le(page, 8 * slot, NONE),
        }
    }
}
