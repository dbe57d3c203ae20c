ghost use Rattle.std.specs.Prelude.{◌≡◌, ◌<◌, ◌≤◌, ◌^◌, length, position, count_by};
ghost use Rattle.mig_records.specs.Common.{word_type, word_pfn, word_has_data};
ghost use Rattle.mig_records.specs.Words.{has_reserved_type, names_outside, data_len_of};
ghost use Rattle.mig_records.specs.Faults.{fault_of_words};

use mig_headers::{Cause, Kind};
use mig_pagetypes::decode_word;

/// The number of the type in a word.
fn type_number(word: u64) -> u64
    ensures { result ≡ word_type word }
{
    word / (1 << 60)
}

/// The frame number in a word.
fn pfn(word: u64) -> u64
    ensures { result ≡ word_pfn word }
{
    word % (1 << 52)
}

/// Whether the type in a word is reserved.
fn is_reserved(word: u64) -> bool
    ensures { result ≡ has_reserved_type word }
{
    let number = type_number(word);
    5 <= number && number <= 8
}

/// Whether a word names a frame outside the guest.
fn is_outside(kind: Kind, top: u64, word: u64) -> bool
    ensures { result ≡ names_outside kind top word }
{
    match kind {
        Kind::Pv => pfn(word) > top,
        Kind::Hvm => false,
    }
}

/// Whether the type in a word has data.
fn has_page(word: u64) -> bool
    ensures { result ≡ word_has_data word }
{
    match decode_word(word) {
        Ok(frame) => frame.kind.has_data(),
        Err(_) => false,
    }
}

/// Where the first word with a reserved type is.
fn first_reserved(words: &[u64]) -> Option<usize>
    ensures { result ≡ position has_reserved_type words.now }
{
    words.iter().position(|word| is_reserved(*word))
}

/// Where the first word that names a frame outside the guest is.
fn first_outside(kind: Kind, top: u64, words: &[u64]) -> Option<usize>
    ensures { result ≡ position (names_outside kind top) words.now }
{
    words.iter().position(|word| is_outside(kind, top, *word))
}

/// What is wrong with the words of a PAGE_DATA, where `top` is the last frame number of a PV guest. It is BadPageType
/// for the first word with a reserved type, else PfnOutside for the first that names a frame outside the guest.
#[tactic(auto, using(crate::proofs::WordFaults::reserved_found, crate::proofs::WordFaults::outside_found, crate::proofs::WordFaults::none_found))]
pub fn words_fault(kind: Kind, top: u64, words: &[u64]) -> Option<Cause>
    ensures fault { result ≡ fault_of_words kind top words.now }
{
    if let Some(entry) = first_reserved(words) {
        return Some(Cause::BadPageType(entry as u64, type_number(words[entry])));
    }
    if let Some(entry) = first_outside(kind, top, words) {
        return Some(Cause::PfnOutside(entry as u64, pfn(words[entry])));
    }
    None
}

/// How many of the words have data.
fn pages(words: &[u64]) -> usize
    ensures count { result ≡ count_by word_has_data words.now }
    ensures bound { result ≤ length words.now }
{
    words.iter().filter(|word| has_page(**word)).count()
}

/// The length of a PAGE_DATA's body with these words: a front of 8 bytes, the words, and a page for each word whose
/// type has data.
pub fn data_len(words: &[u64]) -> u64
    requires { length words.now < 2 ^ 24 }
    ensures { result ≡ data_len_of words.now }
{
    8 + 8 * words.len() as u64 + 4096 * pages(words) as u64
}
