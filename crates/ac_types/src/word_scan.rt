//! The scan of words with separators between them.
ghost use Rattle.std.specs.Prelude.{◌≡◌, ◌≢◌, true, false, MatchOption, MatchResult, ⊤, length, ◌≤◌, ◌||◌, ◌&&◌};
ghost use Rattle.ac_types.specs.Names.{is_word_byte, are_words, IsLongestBeginning, IsNameFault};
ghost use Rattle.ac_types.specs.Separators.{separates};

use crate::name_error::NameError;

/// Which bytes may stand between the words of a name.
#[derive(Clone, Copy)]
pub(crate) enum Separators {
    Hyphen,
    Any,
}

impl Separators {
    fn has(self, byte: u8) -> bool
        ensures { result ≡ separates self byte }
    {
        match self {
            Separators::Hyphen => byte == b'-',
            Separators::Any => matches!(byte, b'-' | b'.' | b'_' | b'~' | b'/'),
        }
    }

    fn may_follow(self, in_word: bool, byte: u8) -> bool
        ensures { result ≡ (is_word_byte byte || (in_word && separates self byte)) }
    {
        stands_in_word(byte) || (in_word && self.has(byte))
    }
}

fn stands_in_word(byte: u8) -> bool
    ensures { result ≡ is_word_byte byte }
{
    matches!(byte, b'a'..=b'z' | b'0'..=b'9')
}

/// Where the bytes stop to be words, if they do.
fn first_bad_byte(bytes: &[u8], separators: Separators) -> Option<usize>
    ensures none { MatchOption result (are_words (separates separators) bytes.now ≡ true) (λ _. are_words (separates separators) bytes.now ≡ false) }
    ensures some { MatchOption result ⊤ (IsLongestBeginning (separates separators) bytes.now) }
{
    let mut in_word = false;
    for (i, byte) in bytes.iter().enumerate() {
        if !separators.may_follow(in_word, *byte) {
            return Some(i);
        }
        in_word = stands_in_word(*byte);
    }
    if in_word { None } else { Some(bytes.len()) }
}

/// Whether the text is words with one separator between two of them, of at most `limit` bytes.
pub(crate) fn check_words(text: &str, separators: Separators, limit: usize) -> Result<(), NameError>
    ensures ok { MatchResult result (λ _. are_words (separates separators) text.now ≡ true) (λ _. ⊤) }
    ensures short { MatchResult result (λ _. length text.now ≤ limit) (λ _. ⊤) }
    ensures err { MatchResult result (λ _. ⊤) (IsNameFault (separates separators) limit text.now) }
    ensures memory { MatchResult result (λ _. ⊤) (λ e. e ≢ NameError.NoMemory) }
{
    if text.is_empty() {
        return Err(NameError::Empty);
    }
    if let Some(place) = first_bad_byte(text.as_bytes(), separators) {
        return Err(NameError::BadByte(place));
    }
    if text.len() > limit {
        return Err(NameError::BadByte(limit));
    }
    Ok(())
}
