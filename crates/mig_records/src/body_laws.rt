ghost use Rattle.std.specs.Prelude.{◌≡◌, ◌↔◌, ◌≤◌, ℕ, true, List, length, drop, None};
ghost use Rattle.std.specs.FinMap as maps;
ghost use Rattle.mig_records.specs.Common.{AreBytes, le32, Pv, PartCode, GuestOf, p2m_key, IsFormed};
ghost use Rattle.mig_records.specs.PvBodies.{IsPvInfo, fault_of_pv_info, IsP2m, fault_of_p2m, set_p2m, is_vcpu, fault_of_vcpu};
ghost use Rattle.mig_records.specs.Shapes.{BodiesAreSpelled, BodiesSayOne, BodiesSayParts, BodiesSayBytes, BodiesKeepFormed, CanonicalBodiesSay, HasBodyLength, fault_of_body};

/// The bodies without fault, and the parts that they set, are exactly those that are spelled so.
#[tactic(auto, using(crate::proofs::Spelled::bodies_are_spelled))]
pub fn bodies_are_spelled_law()
    ensures { BodiesAreSpelled }
{}

/// A body says one list of parts.
#[tactic(auto, using(crate::proofs::Spelled::bodies_say_one))]
pub fn bodies_say_one_law()
    ensures { BodiesSayOne }
{}

/// A body of a record of this kind says parts that a guest of this kind may have.
#[tactic(auto, using(crate::proofs::Kept::bodies_say_parts))]
pub fn bodies_say_parts_law()
    ensures { BodiesSayParts }
{}

/// The parts that a body of bytes says are of bytes.
#[tactic(auto, using(crate::proofs::BodyBytes::bodies_say_bytes))]
pub fn bodies_say_bytes_law()
    ensures { BodiesSayBytes }
{}

/// A guest that is well formed stays so, whatever body of a record of its kind is read.
#[tactic(auto, using(crate::proofs::Kept::bodies_keep_formed))]
pub fn bodies_keep_formed_law()
    ensures { BodiesKeepFormed }
{}

/// The canonical bodies of the parts of a code that a well formed guest has say these parts.
#[tactic(auto, using(crate::proofs::Canonical::canonical_bodies_say))]
pub fn canonical_bodies_law()
    ensures { CanonicalBodiesSay }
{}

/// The body of an X86_PV_INFO has no fault exactly where it says a width of 8 and 4 levels.
#[tactic(auto, using(crate::proofs::PvLaws::info_is_spelled))]
pub fn pv_info_law()
    ensures { (body : List ℕ) → length body ≡ 8 → (fault_of_pv_info body ≡ None) ↔ IsPvInfo body }
{}

/// The body of an X86_PV_P2M_FRAMES has no fault exactly where it lists the P2M frames of all frame numbers up to its last.
#[tactic(auto, using(crate::proofs::PvLaws::p2m_is_spelled))]
pub fn p2m_law()
    ensures { (body : List ℕ) → 8 ≤ length body → (fault_of_p2m body ≡ None) ↔ IsP2m (le32 body 4) (drop 8 body) body }
{}

/// A PV guest that is well formed, with top 0 before any P2M frames are listed, stays so where P2M frames are listed.
pub fn p2m_keeps_formed_law()
    ensures { (g : GuestOf) (last : ℕ) (frames body : List ℕ) → g.kind ≡ Pv → (maps.get g.parts p2m_key ≡ None → g.top ≡ 0) → AreBytes body
        → IsP2m last frames body → IsFormed g → IsFormed (set_p2m last frames g) }
{}

/// The first fault of the body of a vCPU's record is that its id is no vCPU's, and then that its context has too many
/// descriptors.
#[tactic(auto, using(crate::proofs::PvLaws::vcpu_rows))]
pub fn vcpu_law()
    ensures { (code : PartCode) (body : List ℕ) → is_vcpu code ≡ true → HasBodyLength code (length body) → fault_of_body code body ≡ fault_of_vcpu code body }
{}
