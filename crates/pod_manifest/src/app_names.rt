//! The names of apps, and of the volumes that are made for them.

ghost use Rattle.std.specs.Prelude.{◌≡◌, ◌≤◌, ◌<◌, ◌++◌, ◌∷◌, [], true, IsTrue, IfOk, length, string_bytes, if◌then◌else◌};
ghost use Rattle.ac_types.specs.Names.{are_words, is_hyphen, is_separator};
ghost use Rattle.pod_manifest.specs.AppNames.{app_name, ends_in_hyphen, hyphenated, is_slash, last_words, own_volume, shortened, without_hyphen};

use ac_types::{AcIdentifier, AcName, MAX_NAME, NameError, NoMemory};
use std::alloc::Global;

/// The name of an image's app: what stands behind the last `/` of the image's name, with hyphens
/// as its separators, shortened.
pub(crate) fn app_name(alloc: Global, image: &AcIdentifier) -> Result<AcName, NoMemory>
    ensures { IfOk result (λ name. name ≡ app_name image.now) }
{
    let words = last_words(alloc, image.as_str())?;
    shortened(alloc, words.as_str())
}

/// The name of the volume that is made for a mount point of an app: both names with a hyphen
/// between them, shortened.
pub(crate) fn own_volume(alloc: Global, app: &AcName, point: &AcName) -> Result<AcName, NoMemory>
    ensures { IfOk result (λ name. name ≡ own_volume app.now point.now) }
{
    let mut words = String::from_str(alloc, app.as_str())?;
    words.push_str("-")?;
    words.push_str(point.as_str())?;
    shortened(alloc, words.as_str())
}

fn last_words(alloc: Global, image: &str) -> Result<String, NoMemory>
    requires { are_words is_separator image.now ≡ true }
    ensures bytes { IfOk result (λ words. string_bytes words ≡ last_words image.now) }
    ensures kind { IfOk result (λ words. are_words is_hyphen (string_bytes words) ≡ true) }
{
    let bytes = image.as_bytes();
    let mut words = String::new(alloc);
    for byte in bytes {
        words = with_byte(words, *byte)?;
    }
    Ok(words)
}

/// What is read so far of the words behind the last slash, with one byte more.
fn with_byte(words: String, byte: u8) -> Result<String, NoMemory>
    requires { byte < 128 }
    ensures { IfOk result (λ more. string_bytes more ≡ (if is_slash byte then [] else string_bytes words ++ hyphenated byte ∷ [])) }
{
    let mut words = words;
    if byte == b'/' {
        words.clear();
        return Ok(words);
    }
    words.push(char::from(hyphenated(byte)))?;
    Ok(words)
}

fn hyphenated(byte: u8) -> u8
    ensures { result ≡ hyphenated byte }
{
    match byte {
        b'.' | b'_' | b'~' => b'-',
        _ => byte,
    }
}

/// The name that some words are, of which a name has room for the first 200 bytes. A hyphen at
/// their end is left out.
fn shortened(alloc: Global, words: &str) -> Result<AcName, NoMemory>
    requires { are_words is_hyphen words.now ≡ true }
    ensures { IfOk result (λ name. name ≡ shortened words.now) }
{
    let front = &words[..words.len().min(MAX_NAME)];
    match AcName::parse(alloc, without_hyphen(front)) {
        Ok(name) => Ok(name),
        Err(NameError::NoMemory) => Err(NoMemory),
        Err(NameError::Empty) => unreachable!(),
        Err(NameError::BadByte(_)) => unreachable!(),
    }
}

fn without_hyphen(text: &str) -> &str
    ensures { result.now ≡ without_hyphen text.now }
{
    if ends_in_hyphen(text) {
        &text[..text.len() - 1]
    } else {
        text
    }
}

fn ends_in_hyphen(text: &str) -> bool
    ensures value { result ≡ ends_in_hyphen text.now }
    ensures room { IsTrue result → 1 ≤ length text.now }
{
    let bytes = text.as_bytes();
    !bytes.is_empty() && bytes[bytes.len() - 1] == b'-'
}
