ghost use Rattle.std.specs.Prelude.{ℕ, List, length, ◌<◌, IfOk};
ghost use Rattle.std.specs.declared.option.Option.{Option};
ghost use Rattle.mig_bytes.specs.Common.{WritesAtMost, WriteAppends};
ghost use Rattle.mig_bytes.specs.Faults.{FaultHasCause};

use crate::Failed;

/// Where bytes go.
pub trait Sink {
    /// The bytes written, where the sink tells them.
    ghost written: { Self → Option (List ℕ) };

    /// How often it has failed; the count never falls.
    ghost faults: { Self → ℕ };

    /// Appends the first bytes of the piece, at least one where there is one, and says how many. After `Failed`
    /// nothing was appended.
    fn write(&mut self, piece: &[u8]) -> Result<usize, Failed>
        ensures bound { WritesAtMost result piece.now }
        ensures some { IfOk result (λ n. 0 < length piece.now → 0 < n) }
        ensures bytes { WriteAppends (written self.old) (written self.new) result piece.now }
        ensures cause { FaultHasCause (faults self.old) (faults self.new) result };
}
