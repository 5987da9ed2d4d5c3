//! The faults of a manifest.
ghost use Rattle.std.specs.Prelude.{◌≡◌, IfOk, Some};
ghost use Rattle.ac_types.specs.FaultNumbers.{number_of};
ghost use Rattle.ac_types.specs.declared.fault.ReadError.TheVariants.{NoMemory};
ghost use Rattle.ac_types.specs.ErrorTexts.{read_error_text};

use crate::memory;
use crate::refusals::BAD_ID;
use crate::text::Text;
use crate::try_copy::TryCopy;
use std::alloc::{AllocError, AllocFailed};
use std::error::Error;
use std::fmt;

/// What is wrong with a manifest at a path.
#[derive(Clone, Copy, Debug, PartialEq, Eq)]
pub enum FaultKind {
    /// An empty text where a name is read.
    Empty,
    /// No name.
    BadByte,
    /// No image ID.
    BadId,
    /// A label's name came before.
    LabelTwice,
    /// A label is named `name`.
    LabelName,
    /// An operating system that is not known.
    BadOs,
    /// An architecture on which the operating system does not run.
    BadArch,
    /// A required field is absent, null or an empty text.
    Missing,
    /// A value of another JSON kind than the wanted one.
    WrongKind,
    /// A number that is not whole.
    Fraction,
    /// A whole number below zero or above its limit.
    OutOfRange,
    /// A bad name or value of an environment variable.
    BadEnvName,
    /// A bad path or program word.
    BadPath,
    /// A range of ports that ends past 65,535.
    PortRange,
    /// No kind of event handler, or one that came before.
    BadHandler,
    /// A name that came before.
    NameTwice,
    /// The document is not JSON.
    NotJson,
    /// The document is of another kind.
    WrongAcKind,
    /// The version of the specification is none.
    BadAcVersion,
    /// A volume that is not readable, or came before.
    BadVolume,
    /// An app's name came before.
    AppTwice,
    /// The document is too long.
    TooLong,
    /// A path that is not absolute.
    NotAbsolute,
    /// A path with a segment `.` or `..`, or with NUL.
    DotSegment,
    /// A path with a segment that is empty or too long.
    SegmentLength,
    /// A path that is too long.
    PathLength,
}

impl FaultKind {
    /// The number by which the refusal is printed.
    pub fn number(self) -> u8
        ensures { result ≡ number_of self }
    {
        match self {
            FaultKind::Empty => 1,
            FaultKind::BadByte => 2,
            FaultKind::BadId => BAD_ID,
            FaultKind::LabelTwice => 5,
            FaultKind::LabelName => 6,
            FaultKind::BadOs => 7,
            FaultKind::BadArch => 8,
            FaultKind::Missing => 9,
            FaultKind::WrongKind => 10,
            FaultKind::Fraction => 11,
            FaultKind::OutOfRange => 12,
            FaultKind::BadEnvName => 13,
            FaultKind::BadPath => 14,
            FaultKind::PortRange => 15,
            FaultKind::BadHandler => 16,
            FaultKind::NameTwice => 17,
            FaultKind::NotJson => 20,
            FaultKind::WrongAcKind => 21,
            FaultKind::BadAcVersion => 22,
            FaultKind::BadVolume => 23,
            FaultKind::AppTwice => 24,
            FaultKind::TooLong => 25,
            FaultKind::NotAbsolute => 30,
            FaultKind::DotSegment => 31,
            FaultKind::SegmentLength => 32,
            FaultKind::PathLength => 33,
        }
    }
}

/// Why a manifest is refused: the first fault, at a JSON path. `$` is the whole document,
/// `labels[1].name` a field.
#[derive(Debug, Drop)]
pub struct Fault {
    pub path: Text,
    pub kind: FaultKind,
}

impl Fault {
    /// An equal fault.
    pub fn copy(&self) -> Result<Fault, memory::NoMemory>
        ensures { IfOk result (λ copy. copy ≡ self.now) }
    {
        Ok(Fault {
            path: self.path.copy()?,
            kind: self.kind,
        })
    }
}

impl TryCopy for Fault {
    fn try_copy(&self) -> Result<Fault, memory::NoMemory> {
        self.copy()
    }
}

/// Why a manifest was not read.
#[derive(Debug, Drop)]
pub enum ReadError {
    Bad(Fault),
    /// Memory ran out.
    NoMemory,
}

impl ReadError {
    /// An equal error.
    pub fn copy(&self) -> Result<ReadError, memory::NoMemory>
        ensures { IfOk result (λ copy. copy ≡ self.now) }
    {
        match self {
            ReadError::Bad(fault) => Ok(ReadError::Bad(fault.copy()?)),
            ReadError::NoMemory => Ok(ReadError::NoMemory),
        }
    }
}

impl fmt::Display for ReadError {
    ghost output = { λ error. Some (read_error_text error) };

    fn fmt<W: fmt::Write>(&self, f: &mut fmt::Formatter<W>) -> fmt::Result {
        match self {
            ReadError::Bad(fault) => {
                write!(
                    f,
                    "refusal {} at {}",
                    fault.kind.number(),
                    fault.path.as_str()
                )
            }
            ReadError::NoMemory => write!(f, "out of memory"),
        }
    }
}

impl Error for ReadError {}

impl From<memory::NoMemory> for ReadError {
    ghost from_gives = { λ _ e. e ≡ NoMemory };

    fn from(_error: memory::NoMemory) -> ReadError {
        ReadError::NoMemory
    }
}

impl From<AllocError> for ReadError {
    ghost from_gives = { λ _ e. e ≡ NoMemory };

    fn from(_error: AllocError) -> ReadError {
        ReadError::NoMemory
    }
}

impl<T: Drop> From<AllocFailed<T>> for ReadError {
    ghost from_gives = { λ _ e. e ≡ NoMemory };

    fn from(_refused: AllocFailed<T>) -> ReadError {
        ReadError::NoMemory
    }
}
