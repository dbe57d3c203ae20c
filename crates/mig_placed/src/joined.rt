ghost use Rattle.std.specs.Prelude.{◌≡◌};

use mig_bytes::Failed;
use mig_file::PageFile;

/// A file behind another, as one file. Pages that are written in place of some in a file are behind it so.
#[derive(Clone, Copy)]
pub struct JoinedFiles<'a, P: PageFile, Q: PageFile> {
    first: &'a P,
    second: &'a Q,
}

impl<P: PageFile, Q: PageFile> JoinedFiles<'_, P, Q> {
    /// The second file behind the first one.
    pub fn new<'a>(first: &'a P, second: &'a Q) -> JoinedFiles<'a, P, Q>
        ensures first { result.first.now ≡ first.now }
        ensures second { result.second.now ≡ second.now }
    {
        JoinedFiles { first, second }
    }
}

impl<P: PageFile, Q: PageFile> PageFile for JoinedFiles<'_, P, Q> {
    ghost use Rattle.mig_placed.specs.Joined.{joined_bytes};

    ghost bytes = { λ s. joined_bytes (P.bytes s.first.now) (Q.bytes s.second.now) };

    fn has_bytes(&self) {
        self.first.has_bytes();
        self.second.has_bytes();
    }

    fn size(&self) -> u64 {
        self.first.size().saturating_add(self.second.size())
    }

    fn read_at(&self, at: u64, buf: &mut [u8]) -> Result<(), Failed> {
        let size = self.first.size();
        if size <= at {
            return self.second.read_at(at - size, buf);
        }
        let inside = size - at;
        if buf.len() as u64 <= inside {
            return self.first.read_at(at, buf);
        }
        let front = inside as usize;
        let Ok(()) = self.first.read_at(at, &mut buf[..front]) else {
            return Err(Failed);
        };
        match self.second.read_at(0, &mut buf[front..]) {
            Ok(()) => Ok(()),
            Err(failed) => Err(failed),
        }
    }
}
