ghost use Rattle.std.specs.Prelude.{◌≡◌, Some, None, if◌then◌else◌};
ghost use Rattle.mig_restore.specs.Common.{RisesOnReadFault, AgreesWithJudging, entry_at};
ghost use Rattle.mig_restore.specs.PageReads.{ReadsPage, entry_with};

use mig_bytes::{Source, Stop, are_bytes, take_part};
use mig_guest::{Fill, Guest};
use mig_headers::Cause;
use mig_pagetypes::PageType;
use mig_restore_form::{page_fault, type_in, type_in_guest};

/// The page of a frame of this type, with its word at this place of its record, in a guest with this top: what is taken is
/// judged where it is.
#[derive(Clone, Copy)]
pub(crate) struct EntryPage {
    pub(crate) kind: PageType,
    pub(crate) place: u32,
    pub(crate) top: u64,
}

impl<S: Source> Fill<S> for EntryPage {
    type Cause = Cause;

    ghost fills = { λ entry before after page result. ReadsPage entry.kind entry.place entry.top (S.left before) (S.left after) (S.faults before) (S.faults after) page result };

    fn fill(&self, src: &mut S, page: &mut [u8; 4096]) -> Result<(), Stop<Cause>> {
        take_part(src, page, Cause::Truncated)?;
        are_bytes(page);
        match page_fault(self.kind, page, self.place, self.top) {
            Some(cause) => Err(Stop::Refused(cause)),
            None => Ok(()),
        }
    }
}

/// Takes the page that goes with the word at this place of its record, where its type has data, and judges it as one that
/// is sent to this guest. Says whether there is one.
pub fn take_page<S: Source>(
    src: &mut S,
    place: u32,
    word: u64,
    guest: &Guest,
    page: &mut [u8; 4096],
) -> Result<bool, Stop<Cause>>
    ensures read { AgreesWithJudging (λ some e. e ≡ entry_with word (if some then Some page.new else None)) (S.left src.old) (S.left src.new) (entry_at guest.now.kind guest.now.top (place, word)) result }
    ensures faults { RisesOnReadFault (S.faults src.old) (S.faults src.new) result }
{
    let in_stream = type_in(word);
    if !in_stream.has_data() {
        return Ok(false);
    }
    let entry = EntryPage {
        kind: type_in_guest(guest.kind(), in_stream),
        place,
        top: guest.top(),
    };
    entry.fill(src, page)?;
    Ok(true)
}
