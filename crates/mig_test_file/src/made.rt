ghost use Rattle.std.specs.Prelude.{◌≡◌, ◌<◌, ◌≤◌, ◌*◌, ◌^◌, length, IfOk};

use mig_bytes::Failed;
use mig_file::{MemFile, PageFile};
use mig_pagetypes::PageType;
use mig_placed::Places;
use std::alloc::Global;
use std::test::Fail;

// How many bytes stand before the first page: places are no multiples of 8.
const BEFORE: u64 = 101;

// How many pages stand in the file: page i has bytes of the value i + 1, and the last page ends with the file.
pub(crate) const PAGES: u8 = 4;

// Where a page stands.
pub(crate) fn place(page: u8) -> u64
    ensures { result < 2 ^ 21 }
{
    BEFORE + 4096 * u64::from(page)
}

// The bytes of the file.
pub(crate) fn bytes(alloc: Global) -> Result<Vec<u8>, Fail> {
    let mut all = vec![in alloc; 0; BEFORE as usize]?;
    for page in 0..PAGES {
        all.extend_from_slice(&[page.wrapping_add(1); 4096])?;
    }
    Ok(all)
}

// A buffer for so many pages, from 1 to 8.
pub(crate) fn buffer(alloc: Global, pages: usize) -> Result<Vec<u8>, Fail>
    ensures { IfOk result (λ made. (4096 ≤ length made.items) × (length made.items ≤ 4096 * 1024)) }
{
    if pages == 0 || pages > 8 {
        return Err("no such buffer".into());
    }
    Ok(vec![in alloc; 0; 4096 * pages]?)
}

// A file of which the reads that begin at one place fail. It tells no bytes.
#[derive(Drop)]
pub(crate) struct FailingFile {
    file: MemFile,
    fails: u64,
}

impl FailingFile {
    pub(crate) fn new(alloc: Global, fails: u64) -> Result<FailingFile, Fail> {
        let file = MemFile::new(bytes(alloc)?, Vec::new(alloc));
        Ok(FailingFile { file, fails })
    }
}

impl PageFile for FailingFile {
    ghost use Rattle.std.specs.Prelude.{None};

    ghost bytes = { λ s. None };

    fn has_bytes(&self) {}

    fn size(&self) -> u64 {
        self.file.size()
    }

    fn read_at(&self, at: u64, buf: &mut [u8]) -> Result<(), Failed> {
        if at == self.fails {
            return Err(Failed);
        }
        self.file.read_at(at, buf)
    }
}

// What is set of frames, one after another: the number, the type, and which page of the file it has. Frame 4 is set twice, and
// frame 7 is taken away.
const SET: [(u64, PageType, u8); 9] = [
    (9, PageType::Notab, 0),
    (1, PageType::Notab, 2),
    (4, PageType::Notab, 1),
    (7, PageType::Notab, 0),
    (2, PageType::Notab, 0),
    (3, PageType::L1Tab, 1),
    (5, PageType::Xalloc, 0),
    (4, PageType::Notab, 3),
    (7, PageType::Xtab, 0),
];

// The frames that stand then: the word of each, its type, and the value of its page's bytes. Their pages are four runs.
pub(crate) const SEEN: [(u64, PageType, u8); 6] = [
    (1, PageType::Notab, 3),
    (2, PageType::Notab, 1),
    (0x1000_0000_0000_0003, PageType::L1Tab, 2),
    (4, PageType::Notab, 4),
    (0xE000_0000_0000_0005, PageType::Xalloc, 0),
    (9, PageType::Notab, 1),
];

// The page of the third run.
pub(crate) const THIRD: u8 = 3;

// The places of these frames.
pub(crate) fn places(alloc: Global) -> Result<Places, Fail> {
    let mut places = Places::new(alloc);
    for (pfn, kind, page) in SET {
        if pfn < 10 && places.set(pfn, kind, place(page)).is_err() {
            return Err("no memory".into());
        }
    }
    Ok(places)
}

// The PAGE_DATA record of these frames: type 1, the length, the count, the words, and the pages.
pub(crate) fn record(alloc: Global) -> Result<Vec<u8>, Fail> {
    let mut text = Vec::new(alloc);
    text.extend_from_slice(&1u32.to_le_bytes())?;
    text.extend_from_slice(&(8 + 8 * 6 + 4096 * 5u32).to_le_bytes())?;
    text.extend_from_slice(&6u64.to_le_bytes())?;
    for (word, _, _) in SEEN {
        text.extend_from_slice(&word.to_le_bytes())?;
    }
    for (_, _, value) in SEEN {
        if value > 0 {
            text.extend_from_slice(&[value; 4096])?;
        }
    }
    Ok(text)
}
