ghost use Rattle.std.specs.Prelude.{◌≡◌, ◌++◌, position, OnOk, IfOk};
ghost use Rattle.mig_legacy.specs.Common.{legacy_type};
ghost use Rattle.mig_legacy.specs.Batches.{is_reserved as reserved, is_high as high, fault_of_batch, IsBatchFault, page_data_words_of, page_data_words as words_of};

use mig_bytes::Memory;
use mig_headers::LegacyCause;
use std::alloc::Global;

// The word that stands for no frame.
const PLACEHOLDER: u64 = 0xF000_0000;

/// The number of the type in a word.
fn type_number(word: u64) -> u64
    ensures { result ≡ legacy_type word }
{
    word / (1 << 28) % 16
}

/// Whether the type in a word is reserved.
fn is_reserved(word: u64) -> bool
    ensures { result ≡ reserved word }
{
    let number = type_number(word);
    5 <= number && number <= 8
}

/// Whether bits 63 to 32 of a word aren't all 0.
fn is_high(word: u64) -> bool
    ensures { result ≡ high word }
{
    word >= 1 << 32
}

/// Where the first word with a reserved type is.
fn first_reserved(words: &[u64]) -> Option<usize>
    ensures { result ≡ position reserved words.now }
{
    words.iter().position(|word| is_reserved(*word))
}

/// Where the first word with high bits is.
fn first_high(words: &[u64]) -> Option<usize>
    ensures { result ≡ position high words.now }
{
    words.iter().position(|word| is_high(*word))
}

/// What is wrong with the words of a batch. It is BadPageType for the first word with a reserved type, else WordHigh
/// for the first whose bits 63 to 32 aren't all 0.
#[tactic(auto, using(crate::proofs::BatchFaults::reserved_found, crate::proofs::BatchFaults::high_found, crate::proofs::BatchFaults::none_found))]
pub fn batch_fault(words: &[u64]) -> Option<LegacyCause>
    ensures value { result ≡ fault_of_batch words.now }
    ensures said { IsBatchFault words.now result }
{
    if let Some(entry) = first_reserved(words) {
        return Some(LegacyCause::BadPageType(entry as u64, type_number(words[entry])));
    }
    if let Some(entry) = first_high(words) {
        return Some(LegacyCause::WordHigh(entry as u64));
    }
    None
}

/// Puts the word of a PAGE_DATA at the end that says what this word says; for a placeholder none.
fn put_word(list: &mut Vec<u64>, word: u64) -> Result<(), Memory>
    ensures ok { OnOk result (list.new.items ≡ list.old.items ++ page_data_words_of word) }
{
    if word == PLACEHOLDER {
        return Ok(());
    }
    if list
        .push(type_number(word) * (1 << 60) + word % (1 << 28))
        .is_err()
    {
        return Err(Memory);
    }
    Ok(())
}

/// The words of a PAGE_DATA that names the same frames as these words of a batch, in the same order.
pub fn page_data_words(alloc: Global, words: &[u64]) -> Result<Vec<u64>, Memory>
    ensures ok { IfOk result (λ list. list.items ≡ words_of words.now) }
{
    let Ok(mut list) = Vec::with_capacity(alloc, words.len()) else {
        return Err(Memory);
    };
    for word in words {
        put_word(&mut list, *word)?;
    }
    Ok(list)
}
