ghost use Rattle.std.specs.Prelude.{◌≡◌, ◌≤◌, List, true, IfNone};
ghost use Rattle.mig_libxl_form.specs.Common.{most_body};
ghost use Rattle.mig_libxl_form.specs.Content.{LibxlRecord};
ghost use Rattle.mig_libxl_form.specs.Judging.{fault_of_libxl_fields, fault_of_libxl_head, allows_length as length_allowed};
ghost use Rattle.mig_libxl_form.specs.Behind.{AreBehind, MayFollow};

use crate::numbers::{
    CHECKPOINT_END, CHECKPOINT_STATE, EMULATOR_CONTEXT, EMULATOR_XENSTORE_DATA, LIBXC_CONTEXT,
    LIBXL_END,
};
use mig_headers::{Cause, Kind, is_optional};
use mig_records::{RecordHead, long_fault};
use mig_restore_form::MOST_RECORDS;

/// What the head of a libxl record is judged by, of the records before it.
#[derive(Clone, Copy, Debug, PartialEq, Eq)]
pub struct RecordsBehind {
    /// How many they are.
    pub records: u32,
    /// Whether some record was an emulator's.
    pub emulated: bool,
    /// The kind of guest of the image among them.
    pub image: Option<Kind>,
}

/// Whether a record of this type may have a body of this length.
fn allows_length(kind: u32, len: u32) -> bool
    ensures { result ≡ length_allowed kind len }
{
    match kind {
        LIBXL_END | LIBXC_CONTEXT => len == 0,
        EMULATOR_XENSTORE_DATA | EMULATOR_CONTEXT => len >= 8,
        _ => true,
    }
}

/// What is wrong with a head, whatever is before it.
#[tactic(auto, unfolding(crate::specs::Judging::fault_of_libxl_fields))]
fn lone_fault(head: RecordHead) -> Option<Cause>
    ensures fault { result ≡ fault_of_libxl_fields head.kind head.len }
    ensures small { IfNone result (head.len ≤ most_body) }
    ensures allowed { IfNone result (length_allowed head.kind head.len ≡ true) }
{
    if let Some(cause) = long_fault(head) {
        return Some(cause);
    }
    if head.kind == CHECKPOINT_END || head.kind == CHECKPOINT_STATE {
        return Some(Cause::Unsupported(u64::from(head.kind)));
    }
    if head.kind > CHECKPOINT_STATE && !is_optional(head.kind) {
        return Some(Cause::UnknownMandatory(u64::from(head.kind)));
    }
    if !allows_length(head.kind, head.len) {
        return Some(Cause::BadLength(u64::from(head.len)));
    }
    None
}

/// What is wrong with the head of the next record of a libxl stream (libxl migration stream, "Records").
#[tactic(auto, unfolding(crate::specs::Judging::fault_of_order))]
pub fn libxl_head_fault(head: RecordHead, behind: RecordsBehind) -> Option<Cause>
    ensures fault { (records : List LibxlRecord) → AreBehind behind records → result ≡ fault_of_libxl_head records head.kind head.len }
    ensures may { IfNone result (MayFollow behind head.kind head.len) }
{
    if let Some(cause) = lone_fault(head) {
        return Some(cause);
    }
    if behind.records >= MOST_RECORDS {
        return Some(Cause::TooManyRecords);
    }
    if head.kind == LIBXL_END && behind.image == Some(Kind::Pv) && behind.emulated {
        return Some(Cause::EmulatorForPv);
    }
    let miscounted = match head.kind {
        LIBXC_CONTEXT => behind.image.is_some(),
        LIBXL_END => behind.image.is_none(),
        _ => false,
    };
    if miscounted {
        return Some(Cause::ContextCount);
    }
    None
}
