ghost use Rattle.std.specs.Prelude.{◌≡◌, ◌<◌, [], length, Some, OnOk, IfOk};
ghost use Rattle.std.specs.Io.{WritesAtMost};
ghost use Rattle.mig_relay.specs.Common.{WriteAppends, Puts, FaultHasCause};

use mig_bytes::{Failed, Sink, WriteFailed, put_all};
use std::alloc::Global;
use std::marker::Model;

/// The bytes that were judged and wait to be written.
#[derive(Drop)]
pub(crate) struct Held {
    bytes: Vec<u8>,
    /// How often no memory was found.
    faults: u64,
}

impl Model for Held {
    ghost use Rattle.mig_relay.specs.Waiting.{HeldState};

    ghost Value = { HeldState };

    ghost view = { λ s. record { bytes = s.bytes.items; faults = s.faults } };
}

impl Held {
    /// Nothing waits.
    pub(crate) fn new(alloc: Global) -> Held
        ensures { result.bytes ≡ [] }
    {
        Held {
            bytes: Vec::new(alloc),
            faults: 0,
        }
    }

    /// How many bytes wait.
    pub(crate) fn len(&self) -> usize
        ensures { result ≡ length self.now.bytes }
    {
        self.bytes.len()
    }

    /// Writes all that waits, and nothing waits then. After `WriteFailed` some first bytes of it are written, but not all.
    pub(crate) fn flush<K: Sink>(&mut self, sink: &mut K) -> Result<(), WriteFailed>
        ensures bytes { Puts self.old.bytes (K.written sink.old) (K.written sink.new) result }
        ensures cause { FaultHasCause (K.faults sink.old) (K.faults sink.new) result }
        ensures none { OnOk result (self.new.bytes ≡ []) }
    {
        put_all(sink, self.bytes.as_slice())?;
        self.bytes.clear();
        Ok(())
    }
}

impl Sink for Held {
    ghost written = { λ s. Some s.bytes };

    ghost faults = { λ s. s.faults };

    /// All of the piece waits too; or no memory was found.
    fn write(&mut self, piece: &[u8]) -> Result<usize, Failed>
        ensures bound { WritesAtMost result piece.now }
        ensures some { IfOk result (λ n. 0 < length piece.now → 0 < n) }
        ensures bytes { WriteAppends (Some self.old.bytes) (Some self.new.bytes) result piece.now }
        ensures cause { FaultHasCause self.old.faults self.new.faults result }
        ensures whole { IfOk result (λ n. n ≡ length piece.now) }
    {
        match self.bytes.extend_from_slice(piece) {
            Ok(()) => Ok(piece.len()),
            Err(_) => {
                self.faults = self.faults.saturating_add(1);
                Err(Failed)
            }
        }
    }
}
