ghost use Rattle.std.specs.Prelude.{◌≡◌, ◌≤◌, ◌<◌, ◌*◌, ◌^◌, true};
ghost use Rattle.mig_pvtables.specs.Common.{little_bytes, with_field};
ghost use Rattle.mig_guest.specs.Formed.{gdt_ents as ents_in};
ghost use Rattle.mig_pvtables.specs.VcpuContexts.{field_place, field_value, field_says, field_says_somewhere, field_of_frame, is_used_somewhere};

use mig_bytes::{put_u64_le, u64_le};

/// The code of the parts that are contexts of vCPUs.
pub const VCPU_BASIC: u32 = 4;

/// How many fields of a context hold a frame.
pub const FIELDS: u8 = 19;

/// Where the number of the GDT's descriptors is.
const GDT_ENTS: usize = 4960;

/// How many descriptors a vCPU's GDT has.
pub fn gdt_ents(context: &[u8; 5168]) -> u64
    ensures { result ≡ ents_in context.now }
{
    u64_le(context, GDT_ENTS)
}

/// Where a field is.
fn place_of(field: u8) -> usize
    requires { field ≤ 18 }
    ensures value { result ≡ 8 * field_place field }
    ensures inside { result ≤ 5160 }
{
    match field {
        0 => 616,
        17 => 5008,
        18 => 4992,
        _ => 4824 + 8 * field as usize,
    }
}

/// The frame that a field of a vCPU's context says, where a stream uses the field: 0 is rdx, 1 to 16 are the GDT's
/// frames, 17 is ctrlreg[3], 18 ctrlreg[1]. The id is that of the vCPU.
pub fn vcpu_frame(context: &[u8; 5168], id: u32, field: u8) -> Option<u64>
    requires { field ≤ 18 }
    ensures { result ≡ field_says id context.now field }
{
    let value = u64_le(context, place_of(field));
    let used = match field {
        0 => id == 0,
        17 => true,
        18 => value % 2 == 1,
        _ => (u64::from(field) - 1) * 512 < gdt_ents(context),
    };
    if !used {
        return None;
    }
    if field <= 16 {
        Some(value)
    } else {
        Some(value / 4096)
    }
}

/// The frame that a field of a vCPU's context says in a host: there ctrlreg[1] is used where it isn't 0.
pub fn host_frame(context: &[u8; 5168], id: u32, field: u8) -> Option<u64>
    requires { field ≤ 18 }
    ensures { result ≡ field_says_somewhere id context.now field }
{
    if field < 18 {
        return vcpu_frame(context, id, field);
    }
    let value = u64_le(context, place_of(field));
    if value == 0 { None } else { Some(value / 4096) }
}

/// Puts a frame into a field that is used. All other bytes stay.
pub fn put_vcpu_frame(context: &mut [u8; 5168], id: u32, field: u8, frame: u64)
    requires field { field ≤ 18 }
    requires used { is_used_somewhere id (ents_in context.old) field (field_value context.old field) ≡ true }
    requires frame { frame < 2 ^ 52 }
    ensures { context.new ≡ with_field context.old (8 * field_place field) (little_bytes 8 (field_of_frame field frame)) }
{
    let value = match field {
        17 => frame * 4096,
        18 => frame * 4096 + 1,
        _ => frame,
    };
    put_u64_le(context, place_of(field), value);
}
