//! AC Names.
ghost use Rattle.std.specs.Prelude.{◌≡◌, IfOk, IfErr};
ghost use Rattle.ac_types.specs.Names.{IsAcName, IsNameFault, is_hyphen};

use crate::memory::NoMemory;
use crate::name_error::NameError;
use crate::refusals::MAX_NAME;
use crate::text::Text;
use crate::try_copy::TryCopy;
use crate::word_scan::{Separators, check_words};
use std::alloc::Global;
use std::marker::Model;

/// An AC Name of App Container 0.8: words of lower-case letters and digits with one hyphen
/// between two of them, of at most 200 bytes. Contracts see its bytes.
#[derive(Drop)]
pub struct AcName {
    text: Text,
}

impl Model for AcName {
    ghost use Rattle.std.specs.Prelude.{ℕ, List};
    ghost use Rattle.ac_types.specs.Names.{IsAcName};

    ghost Value = { List ℕ };

    ghost view = { λ n. n.text };

    ghost invariant = { λ n. IsAcName n.text };
}

impl AcName {
    /// The name that the text is. `Empty` for the empty text; `BadByte` for another that is no
    /// name, at the length of its longest prefix that is a prefix of words joined by hyphens, or
    /// at 200 for words that are longer; `NoMemory` only for a name.
    pub fn parse(alloc: Global, text: &str) -> Result<AcName, NameError>
        ensures ok { IfOk result (λ n. n ≡ text.now) }
        ensures kind { IfOk result (λ _. IsAcName text.now) }
        ensures err { IfErr result (IsNameFault is_hyphen MAX_NAME text.now) }
    {
        check_words(text, Separators::Hyphen, MAX_NAME)?;
        Ok(AcName {
            text: Text::of(alloc, text)?,
        })
    }

    /// The name's bytes.
    pub fn as_str(&self) -> &str
        ensures text { result.now ≡ self.now }
        ensures kind { IsAcName self.now }
    {
        self.text.as_str()
    }

    /// An equal name.
    pub fn copy(&self) -> Result<AcName, NoMemory>
        ensures { IfOk result (λ copy. copy ≡ self.now) }
    {
        Ok(AcName {
            text: self.text.copy()?,
        })
    }
}

impl TryCopy for AcName {
    fn try_copy(&self) -> Result<AcName, NoMemory> {
        self.copy()
    }
}
