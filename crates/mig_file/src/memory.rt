ghost use Rattle.std.specs.Prelude.{◌≡◌, ◌+◌, ◌<◌, ◌⊎◌, ◌↔◌, length, IsTrue, IsErr, OnOk, Some};
ghost use Rattle.mig_file.specs.Files.{IsThere, MeetsBad};

use crate::file::PageFile;
use mig_bytes::{Failed, are_bytes};
use std::marker::Model;

/// A file of bytes in memory, of which some may not be read.
#[derive(Drop)]
pub struct MemFile {
    bytes: Vec<u8>,
    bad: Vec<u64>,
}

impl Model for MemFile {
    ghost use Rattle.mig_file.specs.Files.{FileState};

    ghost Value = { FileState };

    ghost view = { λ s. record { bytes = s.bytes.items; bad = s.bad.items } };
}

impl MemFile {
    /// A file of these bytes. A read that meets one of the bad places fails.
    pub fn new(bytes: Vec<u8>, bad: Vec<u64>) -> MemFile
        ensures { result ≡ record { bytes = bytes.items; bad = bad.items } }
    {
        MemFile { bytes, bad }
    }
}

/// Whether one of so many places from this one on is bad.
fn meets_bad(bad: &[u64], at: u64, len: u64) -> bool
    ensures { IsTrue result ↔ MeetsBad bad.now at len }
{
    bad.iter().any(|place| at <= *place && *place - at < len)
}

impl PageFile for MemFile {
    ghost bytes = { λ s. Some s.bytes };

    fn has_bytes(&self) {
        are_bytes(&self.bytes);
    }

    fn size(&self) -> u64 {
        self.bytes.len() as u64
    }

    fn read_at(&self, at: u64, buf: &mut [u8]) -> Result<(), Failed>
        ensures bytes { OnOk result (IsThere self.now.bytes at buf.new) }
        ensures room { length buf.new ≡ length buf.old }

        // It fails exactly where there are too few bytes, or a bad one among them.
        ensures failed { IsErr result ↔ ((length self.now.bytes < at + length buf.old) ⊎ MeetsBad self.now.bad at (length buf.old)) }
    {
        let size = self.bytes.len() as u64;
        let len = buf.len() as u64;
        if at > size || size - at < len || meets_bad(&self.bad, at, len) {
            return Err(Failed);
        }
        let start = at as usize;
        buf.copy_from_slice(&self.bytes[start..start + buf.len()]);
        Ok(())
    }
}
