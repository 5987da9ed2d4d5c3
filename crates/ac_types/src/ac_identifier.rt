//! AC Identifiers.
ghost use Rattle.std.specs.Prelude.{◌≡◌, IfOk, IfErr};
ghost use Rattle.ac_types.specs.Names.{IsAcIdentifier, IsNameFault, is_separator};

use crate::memory::NoMemory;
use crate::name_error::NameError;
use crate::refusals::MAX_IDENTIFIER;
use crate::text::Text;
use crate::try_copy::TryCopy;
use crate::word_scan::{Separators, check_words};
use std::alloc::Global;
use std::marker::Model;

/// An AC Identifier of App Container 0.8: words of lower-case letters and digits with one of `-`,
/// `.`, `_`, `~` and `/` between two of them, of at most 1,024 bytes. Contracts see its bytes.
#[derive(Drop)]
pub struct AcIdentifier {
    text: Text,
}

impl Model for AcIdentifier {
    ghost use Rattle.std.specs.Prelude.{ℕ, List};
    ghost use Rattle.ac_types.specs.Names.{IsAcIdentifier};

    ghost Value = { List ℕ };

    ghost view = { λ n. n.text };

    ghost invariant = { λ n. IsAcIdentifier n.text };
}

impl AcIdentifier {
    /// The identifier that the text is. `Empty` for the empty text; `BadByte` for another that is
    /// none, at the length of its longest prefix that is a prefix of words joined by separators,
    /// or at 1,024 for words that are longer; `NoMemory` only for an identifier.
    pub fn parse(alloc: Global, text: &str) -> Result<AcIdentifier, NameError>
        ensures ok { IfOk result (λ n. n ≡ text.now) }
        ensures kind { IfOk result (λ _. IsAcIdentifier text.now) }
        ensures err { IfErr result (IsNameFault is_separator MAX_IDENTIFIER text.now) }
    {
        check_words(text, Separators::Any, MAX_IDENTIFIER)?;
        Ok(AcIdentifier {
            text: Text::of(alloc, text)?,
        })
    }

    /// The identifier's bytes.
    pub fn as_str(&self) -> &str
        ensures text { result.now ≡ self.now }
        ensures kind { IsAcIdentifier self.now }
    {
        self.text.as_str()
    }

    /// An equal identifier.
    pub fn copy(&self) -> Result<AcIdentifier, NoMemory>
        ensures { IfOk result (λ copy. copy ≡ self.now) }
    {
        Ok(AcIdentifier {
            text: self.text.copy()?,
        })
    }
}

impl TryCopy for AcIdentifier {
    fn try_copy(&self) -> Result<AcIdentifier, NoMemory> {
        self.copy()
    }
}
