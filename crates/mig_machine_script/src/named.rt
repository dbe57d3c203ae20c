ghost use Rattle.std.specs.Prelude.{◌≡◌, ◌≤◌, ◌<◌, ℕ, Some};
ghost use Rattle.mig_machine_script.specs.Common.{option_copied, level_of, machine_named, table_in};
ghost use Rattle.mig_guest.specs.Longs.{long_at};
ghost use Rattle.mig_guest.specs.Tables.{named_frame};
ghost use Rattle.mig_machine_script.specs.HostLines.{is_machine, table_names as some_slot_names, names_machine};

use mig_bytes::u64_le;
use mig_guest::Entry;
use mig_headers::Kind;
use mig_host::Host;
use mig_pagetypes::{MACHINE_LIMIT, PageType};
use mig_pvtables::entry;

/// How many slots a table has.
const SLOTS: usize = 512;

/// The machine frame in bits 12 to 51 of a slot.
fn frame_in(page: &[u8; 4096], slot: usize) -> u64
    requires { slot < 512 }
    ensures { result ≡ named_frame (long_at page.now slot) }
{
    u64_le(page, 8 * slot) / 4096 % MACHINE_LIMIT
}

/// Whether this slot of a table of this level names the machine frame.
fn slot_names(page: &[u8; 4096], level: u8, slot: usize, mfn: u64) -> bool
    requires least { 1 ≤ level }
    requires most { level ≤ 4 }
    requires slot { slot < 512 }
    ensures { result ≡ is_machine mfn (machine_named level page.now slot) }
{
    match entry(page, level, slot) {
        Entry::Blank | Entry::NotPresent => false,
        Entry::Superpage => frame_in(page, slot) == mfn,
        Entry::Frame(named) => named == mfn,
    }
}

/// Whether some slot of a table of this level names the machine frame.
fn table_names(page: &[u8; 4096], level: u8, mfn: u64) -> bool
    requires least { 1 ≤ level }
    requires most { level ≤ 4 }
    ensures { result ≡ some_slot_names mfn (Some (level, page.now)) }
{
    for slot in 0..SLOTS {
        if slot_names(page, level, slot, mfn) {
            return true;
        }
    }
    false
}

/// Whether a frame is a table that names the machine frame.
fn frame_names(kind: PageType, page: Option<&[u8; 4096]>, mfn: u64) -> bool
    ensures { result ≡ some_slot_names mfn (table_in (level_of kind) (option_copied page.entry)) }
{
    let Some(level) = kind.table_level() else {
        return false;
    };
    match page {
        Some(page) => table_names(page, level, mfn),
        None => false,
    }
}

/// Whether some table among the frames of a host names the machine frame.
fn some_table_names(host: &Host, mfn: u64) -> bool
    ensures { result ≡ names_machine host.now.host.frames mfn }
{
    let mut from = 0;
    while let Some((pfn, kind, _, page)) = host.next_entry(from) {
        if frame_names(kind, page, mfn) {
            return true;
        }
        from = pfn + 1;
    }
    false
}

/// Whether some table of a host names the machine frame. An HVM host has no tables, so its frames aren't looked at.
pub(crate) fn is_named(host: &Host, mfn: u64) -> bool
    ensures { result ≡ names_machine host.now.host.frames mfn }
{
    let _width = host.width();
    match host.kind() {
        Kind::Hvm => false,
        Kind::Pv => some_table_names(host, mfn),
    }
}
