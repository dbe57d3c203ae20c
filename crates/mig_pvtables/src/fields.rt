ghost use Rattle.std.specs.Prelude.{◌≡◌, ◌≤◌, ℕ, List, Option, length, Some, find};
ghost use Rattle.std.specs.FinMap as maps;
ghost use Rattle.mig_pvtables.specs.Common.{PageType, PartKey};
ghost use Rattle.mig_pvtables.specs.Faults.{type_at, fits_field, field_numbers, find_in_contexts, misses};
ghost use Rattle.mig_pvtables.specs.VcpuContexts.{Usage, is_used, says_where};

use crate::listing::TypedFrames;
use crate::vcpu::{FIELDS, vcpu_frame};
use crate::walking::next_context;
use mig_guest::Parts;
use mig_pagetypes::PageType;

/// Whether a field of a vCPU's context may say a frame of this type.
pub fn is_type_of_field(field: u8, kind: Option<PageType>) -> bool
    ensures { result ≡ fits_field field kind }
{
    if field <= 16 {
        matches!(kind, Some(PageType::Notab))
    } else {
        matches!(kind, Some(PageType::L4Tab | PageType::L4Pinned))
    }
}

/// What the fields of a vCPU's context say: frame numbers in a stream, machine frames in a host.
pub trait FieldFrames {
    /// Which fields are used.
    ghost used: { Self → Usage };

    /// The type of a frame, by what a field says.
    ghost types: { Self → ℕ → Option PageType };

    /// The frame that a field says, where the vCPU of this id uses the field.
    fn field_frame(&self, context: &[u8; 5168], id: u32, field: u8) -> Option<u64>
        requires { field ≤ 18 }
        ensures { result ≡ says_where (used self.now) id context.now field };

    /// The type of the frame that a field says.
    fn type_of(&self, frame: u64) -> Option<PageType>
        ensures { result ≡ types self.now frame };
}

/// The frames of a guest in a stream, by their numbers.
#[derive(Drop)]
pub(crate) struct InStream<'a, T> {
    pub(crate) frames: &'a T,
}

impl<T: TypedFrames> FieldFrames for InStream<'_, T> {
    ghost used = { λ _. is_used };

    ghost types = { λ it. type_at (T.frames it.frames.now) };

    fn field_frame(&self, context: &[u8; 5168], id: u32, field: u8) -> Option<u64> {
        vcpu_frame(context, id, field)
    }

    fn type_of(&self, frame: u64) -> Option<PageType> {
        self.frames.type_of_frame(frame)
    }
}

/// The first field of a vCPU's context that is used and says no frame of its type.
fn bad_field_of<S: FieldFrames>(said: &S, context: &[u8; 5168], id: u32) -> Option<u8>
    ensures { result ≡ find (misses (S.used said.now) (S.types said.now) id context.now) field_numbers }
{
    for field in 0..FIELDS {
        if let Some(frame) = said.field_frame(context, id, field) {
            if !is_type_of_field(field, said.type_of(frame)) {
                return Some(field);
            }
        }
    }
    None
}

/// The first field of a vCPU that is used and says no frame of its type: the vCPU's id, and the field.
pub fn bad_field<S: FieldFrames>(parts: &Parts, said: &S) -> Option<(u32, u8)>
    requires { (key : PartKey) (context : List ℕ) → maps.get parts.now key ≡ Some context → key.code ≡ 4 → length context ≡ 5168 }
    ensures { result ≡ find_in_contexts (misses (S.used said.now) (S.types said.now)) parts.now }
{
    let mut after = None;
    while let Some((key, context)) = next_context(parts, after) {
        if let Some(field) = bad_field_of(said, context, key.key1) {
            return Some((key.key1, field));
        }
        after = Some(key);
    }
    None
}
