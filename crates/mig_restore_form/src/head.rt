ghost use Rattle.std.specs.Prelude.{◌≡◌, ◌≤◌, ◌<◌, ◌∷◌, [], ◌++◌, List, ℕ, ◌+◌, length, true, OnOk, IfNone as OnNone, None, Some};
ghost use Rattle.mig_restore_form.specs.Common.{unless_faulty, record_row_of, type_of_number, most_body, RecordType, fault_of_length};
ghost use Rattle.mig_restore_form.specs.Judging.{Opening, Before, most_records, opening_of, fault_of_number, fault_of_fields};

use mig_headers::{Cause, Kind};
use mig_order::Gate;
use mig_records::{RecordHead, length_fault, long_fault};

/// The most records of an image, and of a libxl stream.
pub const MOST_RECORDS: u32 = 1 << 28;

/// What a reader of images keeps of the records before.
#[derive(Drop)]
pub struct RecordsSeen {
    /// How many they are.
    pub records: u32,
    /// The kind in the domain header.
    pub kind: Kind,
    /// Which type may come next.
    pub gate: Gate,
    ghost same_kind: { gate.kind ≡ kind },
}

impl RecordsSeen {
    ghost use Rattle.mig_restore_form.specs.Seen.{IsSeen};

    /// What is known before the first record: no record was seen.
    pub fn new(version: u32, kind: Kind) -> RecordsSeen
        ensures seen { IsSeen result (opening_of version kind) [] }
        ensures count { result.records ≡ 0 }
    {
        RecordsSeen {
            records: 0,
            kind,
            gate: Gate::new(version, kind),
        }
    }

    /// Whether there is no room for one record more.
    fn number_fault(&self) -> Option<Cause>
        ensures fault { (types : List ℕ) → self.now.records ≡ length types → result ≡ fault_of_number types }
        ensures room { OnNone result (self.now.records < most_records) }
    {
        if self.records >= MOST_RECORDS {
            return Some(Cause::TooManyRecords);
        }
        None
    }

    /// Judges the next record's head, and counts the record where nothing is wrong with it.
    #[tactic(auto, unfolding(crate::specs::Judging::fault_of_fields))]
    pub fn judge(&mut self, head: RecordHead) -> Result<(), Cause>
        ensures judged { (b : Before) → IsSeen self.old b.opening b.types → result ≡ unless_faulty (fault_of_fields b head.kind head.len) tt }
        ensures seen { OnOk result ((o : Opening) (types : List ℕ) → IsSeen self.old o types → IsSeen self.new o (types ++ head.kind ∷ [])) }
        ensures len { OnOk result (head.len ≤ most_body) }
        ensures allowed { OnOk result (fault_of_length head.kind head.len ≡ None) }
        ensures count { OnOk result ((self.new.records ≡ self.old.records + 1) × (self.old.records < most_records)) }
        ensures of_kind { OnOk result ((this : RecordType) → type_of_number head.kind ≡ Some this → (record_row_of this).of_kind self.old.kind ≡ true) }
        ensures kind { self.new.kind ≡ self.old.kind }
    {
        if let Some(cause) = long_fault(head) {
            return Err(cause);
        }
        if let Err(cause) = self.gate.step(head.kind) {
            return Err(cause);
        }
        if let Some(cause) = length_fault(head) {
            return Err(cause);
        }
        if let Some(cause) = self.number_fault() {
            return Err(cause);
        }
        self.records += 1;
        Ok(())
    }
}
