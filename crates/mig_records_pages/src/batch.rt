ghost use Rattle.std.specs.Prelude.{◌≡◌, ◌<◌, [], length, OnOk, OnErr, IfOk};
ghost use Rattle.mig_records_pages.specs.Common.{FaultHasCause};
ghost use Rattle.mig_records_pages.specs.PageData.{most_entries};
ghost use Rattle.mig_records_pages.specs.Told.{told_of, HasPfn};
ghost use Rattle.mig_records_pages.specs.Batches.{SendsOn, Flushes, FallsBehind};

use crate::HeldFrame;
use crate::pages::{MOST_ENTRIES, write_batch};
use mig_bytes::{Sink, WriteFailed};
use std::alloc::{AllocError, Global};
use std::marker::Model;

/// Entries that are held until their record is written.
#[derive(Drop)]
pub struct Batch {
    entries: Vec<HeldFrame>,
}

impl Model for Batch {
    ghost use Rattle.std.specs.Prelude.{◌<◌, ◌≤◌, List, All, length, vec_capacity};
    ghost use Rattle.mig_records_pages.specs.PageData.{most_entries};
    ghost use Rattle.mig_records_pages.specs.Told.{FrameTold, told_held, HasPfn};

    ghost Value = { List FrameTold };

    ghost view = { λ b. told_held b.entries.items };

    ghost invariant = { λ b. (most_entries ≤ vec_capacity b.entries) × (length b.entries.items < most_entries) × All HasPfn b.entries.items };
}

impl Batch {
    /// A batch that holds nothing.
    pub fn new(alloc: Global) -> Result<Batch, AllocError>
        ensures { IfOk result (λ batch. batch ≡ []) }
    {
        let entries = Vec::with_capacity(alloc, MOST_ENTRIES)?;
        Ok(Batch { entries })
    }

    /// Sends an entry: it is held, and once as many are held as a record may have they are written as one. After
    /// `WriteFailed` nothing is held.
    pub fn send<K: Sink>(&mut self, sink: &mut K, entry: HeldFrame) -> Result<(), WriteFailed>
        requires { HasPfn entry }
        ensures sent { OnOk result (SendsOn (told_of entry) (K.written sink.old) (K.written sink.new) self.old self.new) }
        ensures behind { OnErr result (FallsBehind 1 (K.written sink.old) (K.written sink.new) self.old) }
        ensures empty { OnErr result (self.new ≡ []) }
        ensures few { length self.new < most_entries }
        ensures cause { FaultHasCause (K.faults sink.old) (K.faults sink.new) result }
    {
        let _ = self.entries.push(entry);
        if self.entries.len() < MOST_ENTRIES {
            return Ok(());
        }
        let written = write_batch(sink, &self.entries);
        self.entries.clear();
        written
    }

    /// Writes what is held as one record, if anything is held. After `WriteFailed` too nothing is held.
    pub fn flush<K: Sink>(&mut self, sink: &mut K) -> Result<(), WriteFailed>
        ensures sent { OnOk result (Flushes (K.written sink.old) (K.written sink.new) self.old) }
        ensures behind { OnErr result (FallsBehind 0 (K.written sink.old) (K.written sink.new) self.old) }
        ensures empty { self.new ≡ [] }
        ensures cause { FaultHasCause (K.faults sink.old) (K.faults sink.new) result }
    {
        if self.entries.is_empty() {
            return Ok(());
        }
        let written = write_batch(sink, &self.entries);
        self.entries.clear();
        written
    }
}
