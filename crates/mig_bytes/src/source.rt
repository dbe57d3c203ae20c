ghost use Rattle.std.specs.Prelude.{◌≤◌, ℕ, List, IfOk};
ghost use Rattle.std.specs.declared.option.Option.{Option};
ghost use Rattle.mig_bytes.specs.Common.{ReadsAtMost, ReadConsumes};
ghost use Rattle.mig_bytes.specs.Bytes.{AreBytes, PassesOver};
ghost use Rattle.mig_bytes.specs.Faults.{FaultHasCause};

use crate::Failed;

/// The most bytes that are passed over at once where they have to be read.
const PASSED_AT_ONCE: usize = 4096;

/// Does nothing. That bytes are below 256 is what makes a guest that they are set in one of bytes.
pub fn are_bytes(bytes: &[u8])
    ensures { AreBytes bytes.now }
{}

/// Where bytes come from.
pub trait Source {
    /// The bytes that are left, where the source tells them.
    ghost left: { Self → Option (List ℕ) };

    /// How often it has failed; the count never falls.
    ghost faults: { Self → ℕ };

    /// Copies the next bytes into the front of the buffer, and takes them. `Ok(0)` on a buffer with room says that
    /// nothing is left. After `Failed` nothing was taken.
    fn read(&mut self, buf: &mut [u8]) -> Result<usize, Failed>
        ensures bound { ReadsAtMost result buf.new }
        ensures bytes { ReadConsumes (left self.old) (left self.new) result buf.new }
        ensures cause { FaultHasCause (faults self.old) (faults self.new) result };

    /// Takes some of the next bytes, at most so many, and gives none of them. `Ok(0)` where some were asked for says that
    /// nothing is left. After `Failed` nothing was taken.
    fn pass(&mut self, most: usize) -> Result<usize, Failed>
        ensures bound { IfOk result (λ n. n ≤ most) }
        ensures bytes { PassesOver (left self.old) (left self.new) most result }
        ensures cause { FaultHasCause (faults self.old) (faults self.new) result }
    {
        let mut buf = [0; PASSED_AT_ONCE];
        let front = &mut buf[..most.min(PASSED_AT_ONCE)];
        let taken = self.read(front);
        are_bytes(front);
        taken
    }
}
