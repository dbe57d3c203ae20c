ghost use Rattle.std.specs.Prelude.{◌≡◌, IfOk, OnOk, OnErr};
ghost use Rattle.mig_guest.specs.Formed.{IsFormed};
ghost use Rattle.mig_guest.specs.Tables.{blanked_table};
ghost use Rattle.mig_pvtables.specs.Blank.{blank as blank_form};
ghost use Rattle.mig_blanked.specs.Behind.{MarkListed};

use crate::listed::mark_listed;
use mig_bytes::Memory;
use mig_guest::Guest;
use mig_headers::Kind;
use mig_pagestore_index::Index;
use mig_pvtables::{
    TableStep, blank_shared_info, blank_table, blank_vcpus, each_table, zero_p2m_frames,
};
use std::alloc::Global;

/// Page tables come to their blank form.
#[derive(Drop)]
struct BlankTables;

impl TableStep for BlankTables {
    ghost tables = { λ _. blanked_table };

    fn change_table(&self, page: &mut [u8; 4096], level: u8) {
        blank_table(page, level);
    }
}

/// Brings a guest to its blank form, which need not be whole. Takes no memory.
fn blank_formed(guest: &mut Guest)
    requires { IsFormed guest.old }
    ensures blank { guest.new ≡ blank_form guest.old }
    ensures formed { IsFormed guest.new }
{
    match guest.kind() {
        Kind::Hvm => {}
        Kind::Pv => {
            each_table(guest, &BlankTables);
            zero_p2m_frames(guest);
            blank_vcpus(guest);
            blank_shared_info(guest);
        }
    }
}

/// Brings the outline of a guest to its blank form, and answers marks of the frames that its list of the P2M frames names.
/// Where no memory is found, the outline stays.
pub fn blank_outline(alloc: Global, outline: &mut Guest) -> Result<Index, Memory>
    requires { IsFormed outline.old }
    ensures marks { IfOk result (λ marks. MarkListed outline.old.frames outline.old.parts marks.values) }
    ensures blank { OnOk result (outline.new ≡ blank_form outline.old) }
    ensures kept { OnErr result (outline.new ≡ outline.old) }
    ensures formed { IsFormed outline.new }
{
    let marks = mark_listed(alloc, outline.frame_store(), outline.parts())?;
    blank_formed(outline);
    Ok(marks)
}
