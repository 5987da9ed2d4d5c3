// Plain words of a command line.
ghost use Rattle.std.specs.Prelude.{◌≡◌, IfOk};
ghost use Rattle.std.specs.List.{list_all};
ghost use Rattle.rkt_words.specs.Lines.{address_of, images_of, one};
ghost use Rattle.rkt_words.specs.Numbers.{number_within};
ghost use Rattle.rkt_words.specs.Readings.{ReadsValue};
ghost use Rattle.rkt_words.specs.Values.{nonempty_word, is_reference, key_of_word, pod_prefix_of};

use crate::address::is_address;
use crate::error::WordsError;
use crate::number::number;
use ac_types::{ImageRef, NoMemory, RefError, StoreKey, Text};
use dir_model::PodPrefix;
use spawner::Words;
use std::alloc::Global;

fn text_of(alloc: Global, word: &str) -> Result<Text, WordsError>
    ensures { ReadsValue (Some word.now) result }
{
    match Text::of(alloc, word) {
        Ok(text) => Ok(text),
        Err(_) => Err(WordsError::NoMemory),
    }
}

fn pod_of(word: &str) -> Option<PodPrefix>
    ensures { result ≡ pod_prefix_of word.now }
{
    PodPrefix::parse(word)
}

/// The beginning of a pod's text that the one word is.
pub(crate) fn one_pod(words: &[Text]) -> Result<PodPrefix, WordsError>
    ensures { ReadsValue (one pod_prefix_of words.now) result }
{
    match words {
        [word] => match pod_of(word.as_str()) {
            Some(pod) => Ok(pod),
            None => Err(WordsError::Usage(2)),
        },
        _ => Err(WordsError::Usage(2)),
    }
}

/// The one word, which isn't empty.
pub(crate) fn one_filled(alloc: Global, words: &[Text]) -> Result<Text, WordsError>
    ensures { ReadsValue (one nonempty_word words.now) result }
{
    match words {
        [word] => {
            let word = word.as_str();
            if word.is_empty() {
                return Err(WordsError::Usage(2));
            }
            text_of(alloc, word)
        }
        _ => Err(WordsError::Usage(2)),
    }
}

fn key_of(word: &str) -> Option<StoreKey>
    ensures { result ≡ key_of_word word.now }
{
    match StoreKey::parse(word) {
        Ok(key) => Some(key),
        Err(_) => None,
    }
}

/// The key that the one word is.
pub(crate) fn one_key(words: &[Text]) -> Result<StoreKey, WordsError>
    ensures { ReadsValue (one key_of_word words.now) result }
{
    match words {
        [word] => match key_of(word.as_str()) {
            Some(key) => Ok(key),
            None => Err(WordsError::Usage(2)),
        },
        _ => Err(WordsError::Usage(2)),
    }
}

/// The number from 1 on that a word is.
pub(crate) fn small_number(word: &str, most: u32) -> Result<u32, WordsError>
    ensures { ReadsValue (number_within 1 most word.now) result }
{
    match number(word, 1, most as u64) {
        Some(number) => Ok(number as u32),
        None => Err(WordsError::Usage(2)),
    }
}

/// The address that a word is.
pub(crate) fn address(alloc: Global, word: &str) -> Result<Text, WordsError>
    ensures { ReadsValue (address_of word.now) result }
{
    if !is_address(word) {
        return Err(WordsError::Usage(2));
    }
    text_of(alloc, word)
}

/// Whether the word is a reference to images. Memory running out isn't told: only a word that is one meets it.
fn is_reference(alloc: Global, word: &str) -> bool
    ensures { result ≡ is_reference word.now }
{
    match ImageRef::parse(alloc, word) {
        Err(RefError::BadRef(_)) => false,
        _ => true,
    }
}

fn are_references(alloc: Global, words: &[Text]) -> bool
    ensures { result ≡ list_all is_reference words.now }
{
    words.iter().all(|word| is_reference(alloc, word.as_str()))
}

fn words_of(alloc: Global, texts: &[Text]) -> Result<Words, NoMemory>
    ensures { IfOk result (λ words. words ≡ texts.now) }
{
    let mut words = Words::new(alloc);
    'texts: for text in texts {
        match words.push(alloc, text.as_str()) {
            Ok(more) => words = more,
            Err(_) => return Err(NoMemory),
        }
    }
    Ok(words)
}

/// The words, where each of them is a reference and there is one at least.
pub(crate) fn images(alloc: Global, words: &[Text]) -> Result<Words, WordsError>
    ensures { ReadsValue (images_of words.now) result }
{
    if words.is_empty() || !are_references(alloc, words) {
        return Err(WordsError::Usage(2));
    }
    match words_of(alloc, words) {
        Ok(words) => Ok(words),
        Err(_) => Err(WordsError::NoMemory),
    }
}
