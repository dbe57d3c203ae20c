ghost use Rattle.std.specs.Prelude.{◌≡◌, ◌⊎◌, ◌≤◌, ◌<◌, ◌+◌, ◌-◌, ◌*◌, ◌/◌, ◌%◌, ◌^◌, ℕ, List, IsSome};
ghost use Rattle.std.specs.declared.option.Option.{Option};
ghost use Rattle.std.specs.FinMap as maps;
ghost use Rattle.mig_headers.specs.declared.kind.Kind.TheVariants.{Hvm};
ghost use Rattle.mig_guest.specs.Guests.{GuestOf};
ghost use Rattle.mig_guest.specs.Hosts.{HostOf, IsValid};
ghost use Rattle.mig_walk.specs.Common.{vcpu_key, IsWhole, IsSound, Standing, in_stream, in_host};
ghost use Rattle.mig_pvtables.specs.Blank.{blank};
ghost use Rattle.mig_host.specs.Hosted.{hosted, rank_in, IsBaseOutside};
ghost use Rattle.mig_walk.specs.Walks.{slot_of, IsCanonical, IsWalked, IsWalkedOnce, at_machine};
ghost use Rattle.mig_outline.specs.Outline.{outline};
ghost use Rattle.mig_pagestore_index.specs.Indexed.{ValueMap};
ghost use Rattle.mig_placed.specs.InFile.{frames_in_file};
ghost use Rattle.mig_walk.specs.Outlined.{StandForGuest};
ghost use Rattle.mig_walk.specs.declared.walk.Walked.{Walked as Answer};
ghost use Rattle.mig_walk.specs.declared.walk.Walked.TheVariants.{NoVcpu, Absent};

/// The lower 48 bits of an address are the four slots that it selects, nine bits for each level, the lowest level lowest, and
/// the byte of a page.
#[tactic(auto, using(crate::proofs::AddressBits::slots_and_byte, crate::proofs::Steps::slot_small))]
pub fn address_is_its_slots()
    ensures bits { (address : ℕ) → address % 2 ^ 48 ≡ slot_of address 4 * 2 ^ 39 + (slot_of address 3 * 2 ^ 30 + (slot_of address 2 * 2 ^ 21 + (slot_of address 1 * 2 ^ 12 + address % 2 ^ 12))) }
    ensures small { (address level : ℕ) → slot_of address level < 512 }
{}

/// Of the addresses of 64 bits the lowest 2^47 are canonical, and the highest 2^47, and no others.
#[tactic(auto, using(crate::proofs::AddressBits::canonical_there, crate::proofs::AddressBits::low_or_high))]
pub fn canonical_address_is_low_or_high()
    ensures canonical { (address : ℕ) → address < 2 ^ 64 → (address < 2 ^ 47) ⊎ (2 ^ 64 - 2 ^ 47 ≤ address) → IsCanonical address }
    ensures none_between { (address : ℕ) → IsCanonical address → (address < 2 ^ 47) ⊎ (2 ^ 64 - 2 ^ 47 ≤ address) }
{}

/// Addresses of one page have one answer, wherever the guest stands: the byte in the page plays no part.
pub fn one_page_has_one_answer()
    ensures { (s : Standing) (vcpu one other : ℕ) (answer : Answer) → one / 2 ^ 12 ≡ other / 2 ^ 12 → IsWalked s vcpu one answer → IsWalked s vcpu other answer }
{}

/// Of each address exactly one answer holds: for a vCPU of a whole guest, and of a valid and sound host.
#[tactic(auto, using(crate::proofs::Laws::guest_once))]
pub fn one_answer_holds()
    ensures guest { (g : GuestOf) (vcpu address : ℕ) → IsWhole g → IsWalkedOnce (in_stream g) vcpu address }
    ensures host { (h : HostOf) (vcpu address : ℕ) → IsValid h → IsSound h → IsWalkedOnce (in_host h) vcpu address }
{}

/// An HVM guest has no vCPU whose addresses a stream tells.
#[tactic(auto, using(crate::proofs::Laws::hvm_none))]
pub fn hvm_guest_has_no_vcpu()
    ensures { (g : GuestOf) (vcpu address : ℕ) → IsWhole g → g.kind ≡ Hvm → IsWalked (in_stream g) vcpu address NoVcpu }
{}

/// An address whose slot of level 4 is one of the hypervisor's own, 256 to 271, means no frame, whatever stands there: its way
/// ends at level 4.
#[tactic(auto, using(crate::proofs::Laws::guest_blank, crate::proofs::Laws::host_blank))]
pub fn blank_slot_is_absent()
    ensures guest { (g : GuestOf) (vcpu address : ℕ) → IsWhole g → IsSome (maps.get g.parts (vcpu_key vcpu)) → IsCanonical address → 256 ≤ slot_of address 4 → slot_of address 4 ≤ 271
        → IsWalked (in_stream g) vcpu address (Absent 4) }
    ensures host { (h : HostOf) (vcpu address : ℕ) → IsValid h → IsSound h → IsSome (maps.get h.parts (vcpu_key vcpu)) → IsCanonical address → 256 ≤ slot_of address 4 → slot_of address 4 ≤ 271
        → IsWalked (in_host h) vcpu address (Absent 4) }
{}

/// An address means the same frame before and after a restore: what is answered over the host that a whole guest in blank form
/// becomes is what is answered over the guest, with a frame's machine frame for its PFN.
pub fn translation_commutes()
    ensures { (g : GuestOf) (base vcpu address : ℕ) (answer there : Answer) → IsWhole g → blank g ≡ g → (IsBaseOutside g base → ⊥)
        → IsWalked (in_stream g) vcpu address answer → IsWalked (in_host (hosted g base)) vcpu address there → there ≡ at_machine (λ pfn. base + rank_in g.frames pfn) answer }
{}

/// The outline of a guest in its blank form stands for the blank form of the guest, with places that read in a file as the
/// guest's frames: names, types, entries of tables and parts are the same.
#[tactic(auto, using(crate::proofs::Outlines::stands_for_guest))]
pub fn outline_has_levels_of_its_guest()
    ensures { (g : GuestOf) (file : Option (List ℕ)) (cells : ValueMap) → frames_in_file file cells ≡ g.frames → StandForGuest (blank (outline g)) cells (blank g) }
{}
