ghost use Rattle.std.specs.Prelude.{◌≡◌, ◌≤◌, ℕ, List, ◌+◌, ◌<◌, ◌^◌, length, get_or, IfSome, IsSome};
ghost use Rattle.std.specs.FinMap as maps;
ghost use Rattle.mig_pvtables.specs.Common.{little_bytes, with_field, PartKey, part_cmp, code_number, blanked_table};
ghost use Rattle.mig_guest.specs.PartKeys.{shared_key as page_key};
ghost use Rattle.mig_pvtables.specs.Blank.{each_value, zero_page as zeros, blank as blank_form};
ghost use Rattle.mig_pvtables.specs.BlankSteps.{only, with_zero_page, where_listed, blanked_code};
ghost use Rattle.mig_pvtables.specs.VcpuContexts.{blanked_value, blanked_context, blanked_shared};
ghost use Rattle.mig_pvtables.specs.Whole.{IsWhole};

use crate::listing::sole_key;
use crate::walking::{ContextStep, P2mStep, TableStep, each_context, each_p2m_frame, each_table};
use mig_bytes::{put_u64_le, u64_le};
use mig_guest::{Guest, PartCode, PartKey};
use mig_headers::Kind;

/// Where ctrlreg[1], the root of user space, is in a vCPU's context, in bytes.
const USER_ROOT: usize = 4992;

/// Where ctrlreg[3], the root, is.
const ROOT: usize = 5008;

/// Where SHARED_INFO has pfn_to_mfn_frame_list_list, the frame of the root of the P2M lists.
const FRAME_LIST_LIST: usize = 3096;

/// Sets the hypervisor's slots of a level 4 table, 256 to 271, to 0; a table of another level stays.
#[tactic(auto, using(crate::proofs::BlankBytes::level_4_blanked, crate::proofs::BlankBytes::other_blanked))]
pub fn blank_table(page: &mut [u8; 4096], level: u8)
    ensures { page.new ≡ blanked_table level page.old }
{
    if level == 4 {
        page[2048..2176].fill(0);
    }
}

/// The page becomes zeros.
fn clear(page: &mut [u8; 4096])
    ensures { page.new ≡ zeros }
{
    page.fill(0);
}

/// Does nothing. That bytes are below 256 is what a part's other numbers stay by, where it is read and written as numbers
/// of 8 bytes.
fn are_small(bytes: &[u8])
    ensures { (i : ℕ) → get_or bytes.now i 0 < 256 }
{}

/// Puts a number of 8 bytes into a part, from this byte on.
fn put_long(guest: &mut Guest, key: PartKey, at: usize, value: u64)
    requires there { IsSome (maps.get guest.old.parts key) }
    requires range { IfSome (maps.get guest.old.parts key) (λ part. at + 8 ≤ length part) }
    ensures { guest.new ≡ record guest.old { parts = each_value (only part_cmp key (λ part. with_field part at (little_bytes 8 value))) guest.old.parts } }
{
    let mut bytes = [0; 8];
    put_u64_le(&mut bytes, 0, value);
    guest.write_part(key, at, &bytes);
}

/// The blank form of ctrlreg[1]: its frame and bit 0, where bit 0 says that a stream uses it.
#[tactic(auto, unfolding(crate::specs::VcpuContexts::blanked_value))]
fn blank_user_root(value: u64) -> u64
    ensures { result ≡ blanked_value 624 value }
{
    if value % 2 == 1 {
        value / 4096 * 4096 + 1
    } else {
        0
    }
}

/// Brings ctrlreg[3] and ctrlreg[1] to their blank forms.
fn blank_roots(context: &mut [u8; 5168])
    ensures { context.new ≡ blanked_context context.old }
{
    let root = u64_le(context, ROOT) / 4096 * 4096;
    let user_root = blank_user_root(u64_le(context, USER_ROOT));
    put_u64_le(context, ROOT, root);
    put_u64_le(context, USER_ROOT, user_root);
}

/// Tables, P2M frames and contexts come to their blank form.
#[derive(Drop)]
struct Blanking;

impl TableStep for Blanking {
    ghost tables = { λ _. blanked_table };

    fn change_table(&self, page: &mut [u8; 4096], level: u8) {
        blank_table(page, level);
    }
}

impl P2mStep for Blanking {
    ghost pages = { λ _ _. zeros };

    fn write_page(&self, page: &mut [u8; 4096], _index: u64) {
        clear(page);
    }
}

impl ContextStep for Blanking {
    ghost contexts = { λ _ _. blanked_context };

    fn change_context(&self, context: &mut [u8; 5168], _id: u32) {
        blank_roots(context);
    }
}

/// The pages of the P2M frames become zeros.
pub fn zero_p2m_frames(guest: &mut Guest)
    ensures { guest.new ≡ record guest.old { frames = each_value (where_listed guest.old.parts with_zero_page) guest.old.frames } }
{
    each_p2m_frame(guest, &Blanking);
}

/// Brings each vCPU's context to its blank form.
pub fn blank_vcpus(guest: &mut Guest)
    requires { (key : PartKey) (context : List ℕ) → maps.get guest.old.parts key ≡ Some context → key.code ≡ 4 → length context ≡ 5168 }
    ensures { guest.new ≡ record guest.old { parts = each_value (blanked_code 4 (λ _. blanked_context)) guest.old.parts } }
{
    each_context(guest, &Blanking);
}

/// Bytes 3096 to 3103 of SHARED_INFO become 0.
pub fn blank_shared_info(guest: &mut Guest)
    requires { IfSome (maps.get guest.old.parts page_key) (λ page. length page ≡ 4096) }
    ensures { guest.new ≡ record guest.old { parts = each_value (only part_cmp page_key blanked_shared) guest.old.parts } }
{
    let key = sole_key(PartCode::SharedInfo);
    if let Some(page) = guest.part(key) {
        are_small(page);
        put_long(guest, key, FRAME_LIST_LIST, 0);
    }
}

/// Brings a guest to its blank form: nothing in it is the hypervisor's own, or is made anew where the guest is restored
/// (P2M frames are zero pages, the hypervisor's slots of level 4 tables are 0, ...). Takes no memory.
pub fn blank(guest: &mut Guest)
    requires { IsWhole guest.old }
    ensures { guest.new ≡ blank_form guest.old }
{
    match guest.kind() {
        Kind::Hvm => {}
        Kind::Pv => {
            each_table(guest, &Blanking);
            zero_p2m_frames(guest);
            blank_vcpus(guest);
            blank_shared_info(guest);
        }
    }
}
