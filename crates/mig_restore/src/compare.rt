ghost use Rattle.std.specs.Prelude.{◌≡◌};
ghost use Rattle.std.specs.FinMap as maps;
ghost use Rattle.std.specs.Option.{option_copied};
ghost use Rattle.mig_restore_form.specs.Mean.{some_frame, is_same_page as same_page, is_same_frame as same_frame};

use mig_guest::Guest;
use mig_pagetypes::PageType;

/// Whether both are no page, or the same one.
pub fn is_same_page(page: Option<&[u8; 4096]>, other: Option<&[u8; 4096]>) -> bool
    ensures { result ≡ same_page (option_copied page.entry) (option_copied other.entry) }
{
    match page {
        None => other.is_none(),
        Some(bytes) => match other {
            None => false,
            Some(others) => bytes.as_slice() == others.as_slice(),
        },
    }
}

/// Whether the guest's frame of this number has this type and this page; whether there is none, for XTAB.
pub(crate) fn has_frame(guest: &Guest, pfn: u64, kind: PageType, page: Option<&[u8; 4096]>) -> bool
    ensures { result ≡ same_frame (maps.get guest.now.frames pfn) (some_frame kind (option_copied page.entry)) }
{
    match guest.frame(pfn) {
        None => kind == PageType::Xtab,
        Some(there) => {
            kind != PageType::Xtab && there == kind && is_same_page(guest.page(pfn), page)
        }
    }
}
