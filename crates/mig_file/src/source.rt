ghost use Rattle.std.specs.Prelude.{◌≡◌, ◌+◌, ◌-◌, ◌^◌, ◌<◌, ◌≤◌, length, min, IfSome};
ghost use Rattle.mig_bytes.specs.Faults.{Rose};
ghost use Rattle.mig_file.specs.Files.{left_at, left_in, failed_in};

use crate::file::PageFile;
use mig_bytes::{Failed, Source};

/// A file that is read on from a place. What is passed over isn't read. It counts the reads that failed.
#[derive(Drop)]
pub struct FileSource<'a, P: PageFile> {
    file: &'a P,
    at: u64,
    faults: u64,
}

impl<'a, P: PageFile> FileSource<'a, P> {
    /// From this place on. None of its reads has failed.
    pub fn new(file: &'a P, at: u64) -> FileSource<'a, P>
        ensures at { result.at ≡ at }
        ensures left { left_in P.bytes result ≡ left_at (P.bytes file.now) at }
        ensures faults { failed_in result ≡ 0 }
    {
        FileSource {
            file,
            at,
            faults: 0,
        }
    }

    /// The same file from the same place on, for a reading of its own.
    pub fn again(&self) -> FileSource<'a, P>
        ensures { result ≡ self.now }
    {
        FileSource {
            file: self.file,
            at: self.at,
            faults: self.faults,
        }
    }

    /// The file.
    pub fn file(&self) -> &'a P
        ensures { result.now ≡ self.now.file.now }
    {
        self.file
    }

    /// Counts a read of the file elsewhere that failed.
    pub fn note_fault(&mut self)
        ensures rose { (failed_in self.old ≤ failed_in self.new) × Rose (failed_in self.old) (failed_in self.new) }
        ensures left { left_in P.bytes self.new ≡ left_in P.bytes self.old }
    {
        self.faults = self.faults.saturating_add(1);
    }

    /// The place of the next byte.
    pub fn at(&self) -> u64
        ensures { result ≡ self.now.at }
    {
        self.at
    }

    /// How many bytes are left.
    #[tactic(auto, using(crate::proofs::Left::rest_counted))]
    pub fn rest(&self) -> u64
        ensures left { IfSome (left_in P.bytes self.now) (λ rest. result ≡ length rest) }
        ensures size { IfSome (P.bytes self.now.file.now) (λ all. result ≡ length all - self.now.at) }
        ensures fits { self.now.at + result < 2 ^ 64 }
    {
        self.file.size().saturating_sub(self.at)
    }

    /// How many of so many bytes are left.
    fn left_of(&self, most: usize) -> usize
        ensures few { result ≤ most }
        ensures fits { self.now.at + result < 2 ^ 64 }
        ensures all { IfSome (P.bytes self.now.file.now) (λ all. result ≡ min (length all - self.now.at) most) }
    {
        self.rest().min(most as u64) as usize
    }
}

impl<P: PageFile> Source for FileSource<'_, P> {
    ghost left = { λ s. left_in P.bytes s };

    ghost faults = { λ s. failed_in s };

    /// One read of the file, where bytes are asked for and left.
    fn read(&mut self, buf: &mut [u8]) -> Result<usize, Failed> {
        let count = self.left_of(buf.len());
        if count == 0 {
            return Ok(0);
        }
        if self.file.read_at(self.at, &mut buf[..count]).is_err() {
            self.note_fault();
            return Err(Failed);
        }
        self.at += count as u64;
        Ok(count)
    }

    /// All of them that the file has. It reads nothing.
    fn pass(&mut self, most: usize) -> Result<usize, Failed> {
        self.file.has_bytes();
        let count = self.left_of(most);
        self.at += count as u64;
        Ok(count)
    }
}
