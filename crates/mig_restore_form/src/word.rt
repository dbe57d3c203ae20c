ghost use Rattle.std.specs.Prelude.{◌≡◌, ◌<◌, ◌≤◌, ◌*◌, ◌^◌, IfNone, IfOk, length, vec_len};
ghost use Rattle.mig_restore_form.specs.Common.{All, word_pfn, level_of};
ghost use Rattle.mig_records.specs.Words.{words as words_in};
ghost use Rattle.mig_restore_form.specs.Mean.{type_in_guest};
ghost use Rattle.mig_restore_form.specs.Judging.{type_in_word, fault_of_level, fault_of_list};
ghost use Rattle.mig_restore_form.specs.Spelled.{IsGoodWord};

use mig_bytes::u64_le;
use mig_headers::{Cause, Kind};
use mig_pagetypes::{PageType, decode_word};
use mig_pvtables::check_table;
use mig_records::{data_len, words_fault};
use std::alloc::{AllocError, Global};

/// The words of 8 bytes, low byte first, that these bytes begin with.
pub fn words_of(alloc: Global, bytes: &[u8], count: usize) -> Result<Vec<u64>, AllocError>
    requires { 8 * count ≤ length bytes.now }
    ensures words { IfOk result (λ v. v.items ≡ words_in count bytes.now) }
    ensures len { IfOk result (λ v. vec_len v ≡ count) }
{
    let mut list = Vec::with_capacity(alloc, count)?;
    for k in 0..count {
        list.push(u64_le(bytes, 8 * k))?;
    }
    Ok(list)
}

/// What is wrong with the words of a PAGE_DATA of so many bytes: a word, or else the length that they ask for.
pub fn list_fault(kind: Kind, top: u64, len: u32, words: &[u64]) -> Option<Cause>
    requires { length words.now < 2 ^ 24 }
    ensures fault { result ≡ fault_of_list kind top len words.now }
    ensures good { IfNone result (All (IsGoodWord kind top) words.now) }
{
    if let Some(cause) = words_fault(kind, top, words) {
        return Some(cause);
    }
    if u64::from(len) != data_len(words) {
        return Some(Cause::BadLength(u64::from(len)));
    }
    None
}

/// The type in a word; one whose type is reserved has no page.
pub fn type_in(word: u64) -> PageType
    ensures { result ≡ type_in_word word }
{
    match decode_word(word) {
        Ok(frame) => frame.kind,
        Err(_) => PageType::Xtab,
    }
}

/// The frame number in a word.
pub fn pfn_in(word: u64) -> u64
    ensures { result ≡ word_pfn word }
{
    word % (1 << 52)
}

/// The type that a frame has in a guest of this kind.
pub fn type_in_guest(kind: Kind, in_stream: PageType) -> PageType
    ensures { result ≡ type_in_guest kind in_stream }
{
    match kind {
        Kind::Pv => in_stream,
        Kind::Hvm => {
            if in_stream.has_data() {
                PageType::Notab
            } else {
                in_stream
            }
        }
    }
}

/// What is wrong with a page at this place of its record, where its type is a table's.
pub fn page_fault(kind: PageType, page: &[u8; 4096], place: u32, top: u64) -> Option<Cause>
    ensures { result ≡ fault_of_level top place (level_of kind) page.now }
{
    let level = kind.table_level()?;
    check_table(page, level, place, top)
}
