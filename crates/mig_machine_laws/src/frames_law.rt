ghost use Rattle.std.specs.Prelude.{◌≡◌, ◌≤◌, ◌<◌, ◌⊎◌, ◌+◌, ◌-◌, ◌*◌, ◌/◌, ◌%◌, ◌^◌, ℕ, false, List, Option, Some, None};
ghost use Rattle.mig_machine_laws.specs.Common.{HostFrame, HostFrames, footprint_of, fits_field, level_of, long_at, p2m_page, pfn_in};
ghost use Rattle.mig_machine_laws.specs.FieldTypes.{data_types, root_types, types_for};

/// Where bit 0 of its entry is set, a slot of a table names the frame number that has the machine frame in bits 12 to
/// 51, also of a superpage. Where bit 0 is clear, and in slots 256 to 271 of a level 4 table, it names none.
#[tactic(auto, using(crate::proofs::SlotNames::present, crate::proofs::SlotNames::absent, crate::proofs::SlotNames::blank))]
pub fn slots_name_frames()
    ensures present { (frames : HostFrames) (frame : HostFrame) (level slot : ℕ) (page : List ℕ) → level_of frame.type ≡ Some level → frame.page ≡ Some page
        → (level ≡ 4 → (slot < 256) ⊎ (271 < slot)) → long_at page slot % 2 ≡ 1 → (footprint_of frames frame).names slot ≡ pfn_in frames (long_at page slot / 2 ^ 12 % 2 ^ 40) }
    ensures absent { (frames : HostFrames) (frame : HostFrame) (level slot : ℕ) (page : List ℕ) → level_of frame.type ≡ Some level → frame.page ≡ Some page
        → long_at page slot % 2 ≡ 0 → (footprint_of frames frame).names slot ≡ None }
    ensures blank { (frames : HostFrames) (frame : HostFrame) (slot : ℕ) (page : List ℕ) → level_of frame.type ≡ Some 4 → frame.page ≡ Some page
        → 256 ≤ slot → slot ≤ 271 → (footprint_of frames frame).names slot ≡ None }
{}

/// Slot s of the P2M frame that is listed at k says the machine frame of frame number 512k + s, and 2^64 - 1 where there is none.
#[tactic(auto, using(crate::proofs::P2mSlots::there, crate::proofs::P2mSlots::none))]
pub fn p2m_slots_say_machine_frames()
    ensures there { (mfn_of : ℕ → Option ℕ) (k slot mfn : ℕ) → slot < 512 → mfn_of (512 * k + slot) ≡ Some mfn → mfn < 2 ^ 64 → long_at (p2m_page mfn_of k) slot ≡ mfn }
    ensures none { (mfn_of : ℕ → Option ℕ) (k slot : ℕ) → slot < 512 → mfn_of (512 * k + slot) ≡ None → long_at (p2m_page mfn_of k) slot ≡ 2 ^ 64 - 1 }
{}

/// rdx and the GDT's frames, fields 0 to 16, may each name frames of type 0 alone. The fields behind them, ctrlreg[3] and
/// ctrlreg[1], may name those of types 4 and 12 alone, which are level 4 tables, not pinned and pinned. No field may name a frame
/// that isn't there.
#[tactic(auto, using(crate::proofs::FieldTypes::for_data, crate::proofs::FieldTypes::for_roots, crate::proofs::FieldTypes::none))]
pub fn worked_field_types()
    ensures data { (field : ℕ) → field ≤ 16 → types_for field ≡ data_types }
    ensures roots { (field : ℕ) → 16 < field → types_for field ≡ root_types }
    ensures none { (field : ℕ) → fits_field field None ≡ false }
{}
