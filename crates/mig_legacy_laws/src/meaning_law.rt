ghost use Rattle.std.specs.Prelude.{◌≡◌, ℕ, List, map};
ghost use Rattle.mig_legacy_laws.specs.Common.{clock_of, kind_numbered, pairs_of_physmap, tail_of, tail_records};
ghost use Rattle.mig_legacy_laws.specs.WorkedMeanings.{chunk_numbers, clock_bytes, clock_in_order, memory_pairs, named_memory, tail_frames, tail_said, unnamed_memory, unnamed_pairs};

/// Each number of a chunk is that of this chunk: the last one, a batch, the vCPUs, the clock, a checkpoint, the toolstack's data, and
/// eleven HVM parameters.
#[tactic(auto, using(crate::proofs::WorkedMeanings::numbers))]
pub fn worked_chunk_numbers()
    ensures { map (λ row. kind_numbered row.0) chunk_numbers ≡ map (λ row. row.1) chunk_numbers }
{}

/// A clock of a legacy stream has mode, nanoseconds, frequency and incarnation; the guest has mode, frequency, nanoseconds and
/// incarnation.
#[tactic(auto, using(crate::proofs::WorkedMeanings::clock))]
pub fn worked_clock()
    ensures { clock_of clock_bytes ≡ clock_in_order }
{}

/// The first 24 bytes of a tail are parameters 5, 6 and 1, 8 bytes each.
#[tactic(auto, using(crate::proofs::WorkedMeanings::tail))]
pub fn worked_tail()
    ensures { (context : List ℕ) → tail_records (tail_of tail_frames context) ≡ tail_said (tail_of tail_frames context).context }
{}

/// Memory of a device model stands in its store under its address, as start_addr, size and name, in hexadecimal digits; memory without
/// a name has none there.
#[tactic(auto, using(crate::proofs::WorkedMeanings::named, crate::proofs::WorkedMeanings::unnamed))]
pub fn worked_memory_names()
    ensures named { pairs_of_physmap named_memory ≡ memory_pairs }
    ensures unnamed { pairs_of_physmap unnamed_memory ≡ unnamed_pairs }
{}
