ghost use Rattle.std.specs.Prelude.{◌≡◌, ◌≤◌, ◌<◌, ◌+◌, ◌-◌, ◌^◌, ◌&&◌, Some, None, nat_lt, nat_le, if◌then◌else◌};

use mig_bytes::{put_u64_le, u64_le};
use mig_pvtables::{BadEntry, Frames, Why, localise_table, normalise_table, p2m_page};

/// The frame numbers below 2^39, each with the machine frame that is 100 more.
struct Shifted;

impl Frames for Shifted {
    ghost pfns = { λ _ mfn. if nat_le 100 mfn && nat_lt mfn (2 ^ 39 + 100) then Some (mfn - 100) else None };

    ghost mfns = { λ _ pfn. if nat_lt pfn (2 ^ 39) then Some (pfn + 100) else None };

    fn pfn_of(&self, mfn: u64) -> Option<u64> {
        if 100 <= mfn && mfn < (1 << 39) + 100 {
            Some(mfn - 100)
        } else {
            None
        }
    }

    fn mfn_of(&self, pfn: u64) -> Option<u64> {
        if pfn < (1 << 39) {
            Some(pfn + 100)
        } else {
            None
        }
    }

    fn one_to_one(&self) {}
}

/// An entry that is present and names a frame, with a bit of each kind around it.
fn naming(frame: u64) -> u64
    requires { frame < 2 ^ 40 }
    ensures least { 1 ≤ result }
    ensures most { result + 128 < 2 ^ 64 }
{
    (1 << 63) + frame * 4096 + 0x67
}

// Slot 0 names frame 5, and slot 511 isn't present.
#[test]
fn renames_there_and_back(rt: HostRuntime) {
    let mut page = [0; 4096];
    put_u64_le(&mut page, 0, naming(5));
    put_u64_le(&mut page, 4088, naming(6) - 1);
    localise_table(&mut page, 1, &Shifted);
    assert_eq!(rt; u64_le(&page, 0), naming(105));
    assert_eq!(rt; u64_le(&page, 4088), naming(6) - 1);
    assert_eq!(rt; normalise_table(&mut page, 1, &Shifted), Ok(()));
    assert_eq!(rt; u64_le(&page, 0), naming(5));
}

// Slot 3 names a machine frame without a frame number; as a table of level 2 slot 7 is a superpage.
#[test]
fn refuses_what_has_no_form_in_a_stream(rt: HostRuntime) {
    let mut page = [0; 4096];
    put_u64_le(&mut page, 24, naming(99));
    put_u64_le(&mut page, 56, naming(105) + 128);
    let unknown = Err(BadEntry {
        slot: 3,
        why: Why::NoFrame,
    });
    let superpage = Err(BadEntry {
        slot: 7,
        why: Why::Superpage,
    });
    assert_eq!(rt; normalise_table(&mut page, 1, &Shifted), unknown);
    assert_eq!(rt; normalise_table(&mut page, 2, &Shifted), superpage);
}

#[test]
fn fills_a_p2m_frame(rt: HostRuntime) {
    let mut page = [0; 4096];
    p2m_page(3, &Shifted, &mut page);
    assert_eq!(rt; u64_le(&page, 0), 3 * 512 + 100);
    assert_eq!(rt; u64_le(&page, 4088), 3 * 512 + 611);
    p2m_page(1 << 30, &Shifted, &mut page);
    assert_eq!(rt; u64_le(&page, 0), u64::MAX);
}
