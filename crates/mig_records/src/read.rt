ghost use Rattle.std.specs.Prelude.{◌≡◌, ◌≢◌, ◌≤◌, ◌+◌, true, false, length, take, [], ◌∷◌, None, IsOk, OnOk, OnErr};
ghost use Rattle.mig_records.specs.Common.{AllByRecursion, put_parts, code_number, PartKey};
ghost use Rattle.std.specs.FinMap as maps;
ghost use Rattle.mig_records.specs.Layouts.{IsSmallKey};
ghost use Rattle.mig_records.specs.Shapes.{shape_of, sole_key, fault_by_shape, parts_by_shape, fault_of_body, parts_of_body, set_parts, is_chain, fault_of_content};
ghost use Rattle.mig_records.specs.declared.shape.Shape.TheVariants.{Single, Named};

use crate::number::{behind, number};
use crate::shape::{Shape, shape_of};
use crate::table::{key_fault, read_table, table_fault};
use mig_bytes::{Memory, u64_le};
use mig_guest::{Guest, MOST_GDT_ENTRIES, PartCode, PartKey};
use mig_headers::Cause;

// ---- single values

/// Sets the part of a code that has one: the first `len` bytes. Where no memory is found, the guest stays.
pub fn read_single(guest: &mut Guest, code: PartCode, len: usize, body: &[u8]) -> Result<(), Memory>
    requires { len ≤ length body.now }
    ensures ok { OnOk result (guest.new ≡ record guest.old { parts = put_parts guest.old.parts ((sole_key code, take len body.now) ∷ []) }) }
    ensures err { OnErr result (guest.new ≡ guest.old) }
{
    let key = PartKey {
        code: code.number(),
        key1: 0,
        key2: 0,
    };
    guest.set_part(key, &body[..len])
}

// ---- named parts

/// The bytes of a vCPU's basic context.
const VCPU_CONTEXT: usize = 5168;

/// Where in a vCPU's basic context the number of its GDT entries is, in bytes.
pub const GDT_ENTS: usize = 4960;

/// What is refused of a part's bytes.
fn content_fault(code: PartCode, bytes: &[u8]) -> Option<Cause>
    ensures { result ≡ fault_of_content code bytes.now }
{
    if code != PartCode::VcpuBasic || bytes.len() != VCPU_CONTEXT {
        return None;
    }
    let entries = u64_le(bytes, GDT_ENTS);
    if entries > MOST_GDT_ENTRIES {
        return Some(Cause::GdtEnts(entries));
    }
    None
}

/// What is wrong with a body that names its part by 4 bytes and `second` more, before so many that are ignored.
fn named_fault(code: PartCode, second: usize, ignored: usize, body: &[u8]) -> Option<Cause>
    requires second { second ≤ 4 }
    requires ignored { ignored ≤ 4 }
    ensures one { result ≡ fault_by_shape (Named second ignored true) code body.now }
    ensures other { result ≡ fault_by_shape (Named second ignored false) code body.now }
{
    if body.len() < 4 + second + ignored {
        return Some(Cause::BadLength(body.len() as u64));
    }
    if let Some(cause) = key_fault(code, number(body, 4), number(behind(body, 4), second)) {
        return Some(cause);
    }
    content_fault(code, behind(body, 4 + second + ignored))
}

/// Sets the part that a body names, or, where `skips` holds, nothing if that part is empty. Where no memory is found, the
/// guest stays.
fn read_named(
    guest: &mut Guest,
    code: PartCode,
    second: usize,
    ignored: usize,
    skips: bool,
    body: &[u8],
) -> Result<(), Memory>
    requires second { second ≤ 4 }
    requires ignored { ignored ≤ 4 }
    requires whole { 4 + second + ignored ≤ length body.now }
    ensures ok { OnOk result (guest.new ≡ record guest.old { parts = put_parts guest.old.parts (parts_by_shape (Named second ignored skips) code body.now) }) }
    ensures small { AllByRecursion (λ p. IsSmallKey p.0) (parts_by_shape (Named second ignored skips) code body.now) }
    ensures err { OnErr result (guest.new ≡ guest.old) }
    ensures empty { parts_by_shape (Named second ignored skips) code body.now ≡ [] → IsOk result }
{
    let bytes = behind(body, 4 + second + ignored);
    if skips && bytes.is_empty() {
        return Ok(());
    }
    let key = PartKey {
        code: code.number(),
        key1: number(body, 4) as u32,
        key2: number(behind(body, 4), second) as u32,
    };
    guest.set_part(key, bytes)
}

// ---- all shapes

/// What is wrong with a body that sets parts of this code: `BadLength`, what is refused of its first key that is refused, or
/// of a part's bytes. A body of its own has no fault here.
pub fn body_fault(code: PartCode, body: &[u8]) -> Option<Cause>
    requires { is_chain (shape_of code) ≡ false }
    ensures { result ≡ fault_of_body code body.now }
{
    match shape_of(code) {
        Shape::Table(layout) => table_fault(code, layout, body),
        Shape::Single(len, ignored) => {
            if body.len() != len + ignored {
                return Some(Cause::BadLength(body.len() as u64));
            }
            None
        }
        Shape::Named(second, ignored, _) => named_fault(code, second, ignored, body),
        Shape::Chain => unreachable!(),
        Shape::Other => None,
    }
}

/// Sets the parts of a body without fault, for a policy in place of all earlier ones; of each key the last decides. Of a
/// body of its own none are set here. Where no memory is found, some of these parts may be set or gone.
pub fn read_body(guest: &mut Guest, code: PartCode, body: &[u8]) -> Result<(), Memory>
    requires no_chain { is_chain (shape_of code) ≡ false }
    requires faultless { fault_of_body code body.now ≡ None }
    ensures ok { OnOk result (guest.new ≡ record guest.old { parts = set_parts code guest.old.parts (parts_of_body code body.now) }) }
    ensures small { AllByRecursion (λ p. IsSmallKey p.0) (parts_of_body code body.now) }
    ensures others { (key : PartKey) → key.code ≢ code_number code → maps.get guest.new.parts key ≡ maps.get guest.old.parts key }
    ensures frames { guest.new ≡ record guest.old { parts = guest.new.parts } }

    // A body that says no part asks for no memory.
    ensures empty { parts_of_body code body.now ≡ [] → IsOk result }
{
    match shape_of(code) {
        Shape::Table(layout) => read_table(guest, code, layout, body),
        Shape::Single(len, _) => read_single(guest, code, len, body),
        Shape::Named(second, ignored, skips) => {
            read_named(guest, code, second, ignored, skips, body)
        }
        Shape::Chain => unreachable!(),
        Shape::Other => Ok(()),
    }
}
