ghost use Rattle.std.specs.Prelude.{None};

use crate::file::PageFile;
use mig_bytes::Failed;
use std::fs;
use std::fs::File;
use std::os::unix::fs::FileExt;

/// The name of the standard input, and of what the system tells of it (proc(5)).
const NAME: &str = "/dev/stdin";

const TOLD: &str = "/proc/self/fdinfo/0";

/// What is before the place of a file there.
const PLACE: &str = "pos:";

/// The standard input, where it is a file of the machine: the trusted edge towards it. It tells no bytes.
#[derive(Drop)]
pub struct StandardFile {
    file: File,
    size: u64,
}

/// The place at which the standard input is, in bytes from the file's beginning, where the system tells it.
fn place_told(rt: &HostRuntime) -> Option<u64> {
    let told = fs::read_to_string(rt, TOLD).ok()?;
    let (_, behind) = told.split_once(PLACE)?;
    behind.lines().next()?.trim().parse().ok()
}

impl StandardFile {
    /// The standard input and the place at which it is, where it is a regular file with bytes that may be opened once
    /// more. Its own place isn't moved.
    pub fn of(rt: &HostRuntime) -> Option<(StandardFile, u64)> {
        if !fs::metadata(rt, NAME).ok()?.is_file() {
            return None;
        }
        let at = place_told(rt)?;
        let file = File::open(rt, NAME).ok()?;
        let size = file.metadata().ok()?.len();
        if size == 0 {
            return None;
        }
        Some((StandardFile { file, size }, at))
    }
}

impl PageFile for StandardFile {
    ghost bytes = { λ _. None };

    fn has_bytes(&self) {}

    fn size(&self) -> u64 {
        self.size
    }

    fn read_at(&self, at: u64, buf: &mut [u8]) -> Result<(), Failed> {
        let mut filled = 0;
        while filled < buf.len() {
            let place = at.saturating_add(filled as u64);
            match self.file.read_at(&mut buf[filled..], place) {
                Ok(count) if count > 0 => filled += count,
                _ => return Err(Failed),
            }
        }
        Ok(())
    }
}
