ghost use Rattle.std.specs.Prelude.{◌≡◌, ◌++◌, ◌∷◌, [], ℕ, List, true, Some, OnOk, OnErr};
ghost use Rattle.mig_headers.specs.Rows.{first_fault};
ghost use Rattle.mig_headers.specs.Headers.{unless_faulty};
ghost use Rattle.mig_headers.specs.RecordTypes.{record_row_of, type_number, type_of_number};
ghost use Rattle.mig_headers.specs.declared.record_type.RecordType.{RecordType};
ghost use Rattle.mig_order.specs.Order.{broken_rules, causes, fault_after, fault_of_type, second_end, late_static, early_content, second_pv_info, early_p2m_frames, early_pages, late_pages, late_verify};
ghost use Rattle.mig_order.specs.Gate.{GateOf, StandsFor, then_type};

use crate::sort::{is_content, is_same, is_static, is_vcpu};
use mig_headers::{Cause, Kind, RecordType, is_optional};
use std::marker::Model;

/// Judges the types of a stream's records, one after the other.
#[derive(Drop)]
pub struct Gate {
    version: u32,
    kind: Kind,
    static_data_end: bool,
    content: bool,
    pv_info: bool,
    p2m_frames: bool,
    vcpu: bool,
    verify: bool,
}

impl Model for Gate {
    ghost Value = { GateOf };

    ghost view = { λ g. record { version = g.version; kind = g.kind; earlier = record { static_data_end = g.static_data_end; content = g.content; pv_info = g.pv_info; p2m_frames = g.p2m_frames; vcpu = g.vcpu; verify = g.verify } } };
}

impl Gate {
    /// A gate before the first record of a stream of this version and kind.
    pub fn new(version: u32, kind: Kind) -> Gate
        ensures version { result.version ≡ version }
        ensures kind { result.kind ≡ kind }
        ensures empty { StandsFor result [] }
    {
        Gate {
            version,
            kind,
            static_data_end: false,
            content: false,
            pv_info: false,
            p2m_frames: false,
            vcpu: false,
            verify: false,
        }
    }

    /// Lets the next record's type pass, or answers what is wrong with it. A refused step changes nothing.
    #[tactic(auto, using(crate::proofs::OrderLaw::has_kind))]
    pub fn step(&mut self, kind: u32) -> Result<(), Cause>
        ensures judged { (types : List ℕ) → StandsFor self.old types → result ≡ unless_faulty (fault_of_type self.old.version self.old.kind types kind) tt }
        ensures passed { OnOk result ((types : List ℕ) → StandsFor self.old types → StandsFor self.new (types ++ kind ∷ [])) }
        ensures of_kind { OnOk result ((this : RecordType) → type_of_number kind ≡ Some this → (record_row_of this).of_kind self.old.kind ≡ true) }
        ensures refused { OnErr result (self.new ≡ self.old) }
        ensures version { self.new.version ≡ self.old.version }
        ensures kind { self.new.kind ≡ self.old.kind }
    {
        match self.fault(kind) {
            None => {
                self.pass(kind);
                Ok(())
            }
            Some(cause) => Err(cause),
        }
    }

    /// Why a record of the type with this number may not follow those before.
    fn fault(&self, number: u32) -> Option<Cause>
        ensures { result ≡ fault_after self.now.version self.now.kind self.now.earlier number }
    {
        if is_optional(number) {
            return None;
        }
        match RecordType::from_number(number) {
            None => Some(Cause::UnknownMandatory(u64::from(number))),
            Some(this) => self.fault_of_known(this),
        }
    }

    /// The same of a type that is known.
    fn fault_of_known(&self, this: RecordType) -> Option<Cause>
        ensures { result ≡ first_fault (causes self.now.version self.now.kind self.now.earlier this) }
    {
        if !this.is_supported() {
            return Some(Cause::Unsupported(u64::from(this.number())));
        }
        if !this.is_of(self.kind) {
            return Some(Cause::WrongKind(u64::from(this.number())));
        }
        self.broken_rule(this)
    }

    /// The first rule of order that a record of this type would break.
    fn broken_rule(&self, this: RecordType) -> Option<Cause>
        ensures { result ≡ first_fault (broken_rules self.now.version self.now.kind self.now.earlier this) }
    {
        if self.is_second_end(this) {
            return Some(Cause::OutOfOrder(1));
        }
        if self.is_late_static(this) {
            return Some(Cause::OutOfOrder(2));
        }
        if self.is_early_content(this) {
            return Some(Cause::OutOfOrder(3));
        }
        if self.is_second_pv_info(this) {
            return Some(Cause::OutOfOrder(4));
        }
        if self.is_early_p2m_frames(this) {
            return Some(Cause::OutOfOrder(5));
        }
        if self.is_early_pages(this) {
            return Some(Cause::OutOfOrder(6));
        }
        if self.is_late_pages(this) {
            return Some(Cause::OutOfOrder(7));
        }
        if self.is_late_verify(this) {
            return Some(Cause::OutOfOrder(8));
        }
        None
    }

    /// Rule 1: a second STATIC_DATA_END.
    fn is_second_end(&self, this: RecordType) -> bool
        ensures { result ≡ second_end self.now.earlier this }
    {
        is_same(this, RecordType::StaticDataEnd) && self.static_data_end
    }

    /// Rule 2: static data behind STATIC_DATA_END, or either behind content.
    fn is_late_static(&self, this: RecordType) -> bool
        ensures { result ≡ late_static self.now.earlier this }
    {
        is_static(this) && self.static_data_end
            || (is_same(this, RecordType::StaticDataEnd) || is_static(this)) && self.content
    }

    /// Rule 3: content before STATIC_DATA_END, which version 3 has.
    fn is_early_content(&self, this: RecordType) -> bool
        ensures { result ≡ early_content self.now.version self.now.earlier this }
    {
        self.version == 3 && is_content(this) && !self.static_data_end
    }

    /// Rule 4: a second X86_PV_INFO.
    fn is_second_pv_info(&self, this: RecordType) -> bool
        ensures { result ≡ second_pv_info self.now.earlier this }
    {
        is_same(this, RecordType::X86PvInfo) && self.pv_info
    }

    /// Rule 5: X86_PV_P2M_FRAMES before X86_PV_INFO.
    fn is_early_p2m_frames(&self, this: RecordType) -> bool
        ensures { result ≡ early_p2m_frames self.now.earlier this }
    {
        is_same(this, RecordType::X86PvP2mFrames) && !self.pv_info
    }

    /// Rule 6: pages of a PV guest before X86_PV_P2M_FRAMES.
    fn is_early_pages(&self, this: RecordType) -> bool
        ensures { result ≡ early_pages self.now.kind self.now.earlier this }
    {
        self.kind == Kind::Pv && is_same(this, RecordType::PageData) && !self.p2m_frames
    }

    /// Rule 7: pages behind the record of a vCPU.
    fn is_late_pages(&self, this: RecordType) -> bool
        ensures { result ≡ late_pages self.now.earlier this }
    {
        is_same(this, RecordType::PageData) && self.vcpu
    }

    /// Rule 8: a second VERIFY, or one behind the record of a vCPU.
    fn is_late_verify(&self, this: RecordType) -> bool
        ensures { result ≡ late_verify self.now.earlier this }
    {
        is_same(this, RecordType::Verify) && (self.verify || self.vcpu)
    }

    /// A record of the type with this number follows those before.
    fn pass(&mut self, number: u32)
        ensures { self.new ≡ record self.old { earlier = then_type self.old.earlier number } }
    {
        if let Some(this) = RecordType::from_number(number) {
            self.pass_known(this);
        }
    }

    /// The same of a type that is known.
    fn pass_known(&mut self, this: RecordType)
        ensures { self.new ≡ record self.old { earlier = then_type self.old.earlier (type_number this) } }
    {
        self.static_data_end = self.static_data_end || is_same(this, RecordType::StaticDataEnd);
        self.content = self.content || is_content(this);
        self.pv_info = self.pv_info || is_same(this, RecordType::X86PvInfo);
        self.p2m_frames = self.p2m_frames || is_same(this, RecordType::X86PvP2mFrames);
        self.vcpu = self.vcpu || is_vcpu(this);
        self.verify = self.verify || is_same(this, RecordType::Verify);
    }
}
