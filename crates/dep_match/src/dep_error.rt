//! Why an image has no tree of dependencies.

ghost use Rattle.std.specs.Prelude.{◌≡◌, Some, IfOk};
ghost use Rattle.dep_match.specs.RefusalNumbers.{dep_error_number};
ghost use Rattle.dep_match.specs.declared.dep_error.DepError.TheVariants.{NoMemory};
ghost use Rattle.dep_match.specs.ErrorTexts.{dep_error_text};

use crate::refusals::{CYCLE, NO_DEPENDENCY, TOO_DEEP, TOO_MANY};
use ac_types::{AcIdentifier, StoreKey, TryCopy, memory};
use std::error::Error;
use std::fmt;

/// Why an image has no tree of dependencies.
#[derive(Drop)]
pub enum DepError {
    /// No image of the list is the dependency of this name.
    NoDependency(AcIdentifier),
    /// The image of this key depends on itself, by way of others or at once.
    Cycle(StoreKey),
    /// The dependencies are nested more than 32 deep, the top image being 1.
    TooDeep,
    /// There are more than 256 nodes.
    TooMany,
    /// Memory ran out.
    NoMemory,
}

impl DepError {
    /// The number by which the refusal is printed; want of memory has none.
    pub fn number(&self) -> Option<u8>
        ensures { result ≡ dep_error_number self.now }
    {
        match self {
            DepError::NoDependency(_) => Some(NO_DEPENDENCY),
            DepError::Cycle(_) => Some(CYCLE),
            DepError::TooDeep => Some(TOO_DEEP),
            DepError::TooMany => Some(TOO_MANY),
            DepError::NoMemory => None,
        }
    }

    /// An equal error.
    pub fn copy(&self) -> Result<DepError, memory::NoMemory>
        ensures { IfOk result (λ copy. copy ≡ self.now) }
    {
        match self {
            DepError::NoDependency(name) => Ok(DepError::NoDependency(name.copy()?)),
            DepError::Cycle(key) => Ok(DepError::Cycle(*key)),
            DepError::TooDeep => Ok(DepError::TooDeep),
            DepError::TooMany => Ok(DepError::TooMany),
            DepError::NoMemory => Ok(DepError::NoMemory),
        }
    }
}

impl TryCopy for DepError {
    fn try_copy(&self) -> Result<DepError, memory::NoMemory> {
        self.copy()
    }
}

impl fmt::Display for DepError {
    ghost output = { λ error. Some (dep_error_text error) };

    fn fmt<W: fmt::Write>(&self, f: &mut fmt::Formatter<W>) -> fmt::Result {
        match self {
            DepError::NoDependency(name) => write!(
                f,
                "no image is the dependency {}",
                name.as_str()
            ),
            DepError::Cycle(_) => write!(f, "an image depends on itself"),
            DepError::TooDeep => write!(f, "the dependencies are nested too deep"),
            DepError::TooMany => write!(f, "there are too many dependencies"),
            DepError::NoMemory => write!(f, "out of memory"),
        }
    }
}

impl From<memory::NoMemory> for DepError {
    ghost from_gives = { λ _ e. e ≡ NoMemory };

    fn from(_error: memory::NoMemory) -> DepError {
        DepError::NoMemory
    }
}

impl fmt::Debug for DepError {
    fn fmt<W: fmt::Write>(&self, f: &mut fmt::Formatter<W>) -> fmt::Result {
        write!(f, "{self}")
    }
}

impl Error for DepError {}
