ghost use Rattle.std.specs.Prelude.{◌≡◌, ◌≤◌, ◌<◌, ◌-◌, ◌^◌, ℕ, Some, None};
ghost use Rattle.std.specs.FinMap as maps;
ghost use Rattle.mig_guest.specs.declared.table.Entry.TheVariants.{Blank, NotPresent, Superpage, Frame};
ghost use Rattle.mig_host_laws.specs.Common.{longs, p2m_key, PartMap, entry_of, listed};

/// What entries say, worked through. Bit 0 says that one is present. Bit 7 says that it is a superpage in a table of
/// level 2, 3 or 4, and nothing in one of level 1. Bits 12 to 51 name the frame, and no other bits do. Slots 256 to 271
/// of a level 4 table say nothing, whatever is in them.
#[tactic(auto, using(crate::proofs::WorkedEntries::level_1, crate::proofs::WorkedEntries::large, crate::proofs::WorkedEntries::small, crate::proofs::WorkedEntries::absent, crate::proofs::WorkedEntries::widest, crate::proofs::WorkedEntries::beside))]
pub fn worked_entries()
    ensures level_1 { (slot : ℕ) → entry_of 1 slot 0x80e7 ≡ Frame 8 }
    ensures large { (entry_of 2 0 0x80e7 ≡ Superpage) × (entry_of 3 0 0x80e7 ≡ Superpage) × (entry_of 4 0 0x80e7 ≡ Superpage) }
    ensures small { (entry_of 2 0 0x8f67 ≡ Frame 8) × (entry_of 3 0 0x8f67 ≡ Frame 8) × (entry_of 4 0 0x8f67 ≡ Frame 8) }
    ensures absent { (entry_of 1 0 0x8ffe ≡ NotPresent) × (entry_of 2 0 0x8ffe ≡ NotPresent) × (entry_of 3 0 0x8ffe ≡ NotPresent) × (entry_of 4 0 0x8ffe ≡ NotPresent) }
    ensures widest { (entry_of 1 0 0xfffffffffffff001 ≡ Frame (2 ^ 40 - 1)) × (entry_of 1 0 0xfff0000000000fff ≡ Frame 0) }
    ensures blank { (e : ℕ) → (entry_of 4 256 e ≡ Blank) × (entry_of 4 271 e ≡ Blank) }
    ensures beside { (entry_of 4 255 0x8067 ≡ Frame 8) × (entry_of 4 272 0x8067 ≡ Frame 8) × (entry_of 3 256 0x8067 ≡ Frame 8) }
{}

/// A list of P2M frames that is n numbers of 8 bytes, the lowest byte first, lists the number at each place below n, and nothing
/// from there on.
#[tactic(auto, using(crate::proofs::ListedNumbers::lists, crate::proofs::ListedNumbers::ends))]
pub fn listed_frames_are_numbers()
    ensures lists { (parts : PartMap) (n : ℕ) (pfn_at : ℕ → ℕ) → maps.get parts p2m_key ≡ Some (longs n pfn_at) → (k : ℕ) → k < n → pfn_at k < 2 ^ 64 → listed parts k ≡ Some (pfn_at k) }
    ensures ends { (parts : PartMap) (n : ℕ) (pfn_at : ℕ → ℕ) → maps.get parts p2m_key ≡ Some (longs n pfn_at) → (k : ℕ) → n ≤ k → listed parts k ≡ None }
{}
