ghost use Rattle.std.specs.Prelude.{◌≡◌};
ghost use Rattle.mig_image.specs.GuestImage.{is_all_zero, page_left_out};

/// The page that is all zero.
#[tactic(auto, unfolding(crate::specs::GuestImage::page_left_out))]
pub(crate) fn zero_page() -> [u8; 4096]
    ensures { result ≡ page_left_out }
{
    [0; 4096]
}

/// Whether all bytes of a page are zero. It looks at all of them, so that they are taken many at a time.
#[tactic(auto, using(crate::proofs::ZeroPages::none_set))]
pub(crate) fn is_all_zero(page: &[u8; 4096]) -> bool
    ensures { result ≡ is_all_zero page.now }
{
    let mut set = 0;
    for byte in page {
        set |= *byte;
    }
    set == 0
}
