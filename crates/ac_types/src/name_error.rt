//! Why a text is no name.
ghost use Rattle.std.specs.Prelude.{◌≡◌, Some};
ghost use Rattle.ac_types.specs.declared.name_error.NameError.TheVariants.{NoMemory};
ghost use Rattle.ac_types.specs.ErrorTexts.{name_error_text};

use crate::memory;
use std::error::Error;
use std::fmt;

/// Why a text is no name.
#[derive(Clone, Copy, Debug, PartialEq, Eq)]
pub enum NameError {
    /// The text is empty.
    Empty,
    /// The length of the longest prefix of the text that is a prefix of some name of any length;
    /// of a name that is too long, the limit.
    BadByte(usize),
    /// Memory ran out.
    NoMemory,
}

impl fmt::Display for NameError {
    ghost output = { λ error. Some (name_error_text error) };

    fn fmt<W: fmt::Write>(&self, f: &mut fmt::Formatter<W>) -> fmt::Result {
        match self {
            NameError::Empty => write!(f, "empty name"),
            NameError::BadByte(place) => write!(f, "bad byte {place} in a name"),
            NameError::NoMemory => write!(f, "out of memory"),
        }
    }
}

impl Error for NameError {}

impl From<memory::NoMemory> for NameError {
    ghost from_gives = { λ _ e. e ≡ NoMemory };

    fn from(_error: memory::NoMemory) -> NameError {
        NameError::NoMemory
    }
}
