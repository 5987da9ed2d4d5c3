//! References to images.
ghost use Rattle.std.specs.Prelude.{◌≡◌, ◌↔◌, IfOk, IfErr, Some, Ok};
ghost use Rattle.ac_types.specs.References.{reference};
ghost use Rattle.ac_types.specs.ReferenceSteps.{IsRead};
ghost use Rattle.ac_types.specs.ReferenceForm.{IsReference, IsRefError};
ghost use Rattle.ac_types.specs.declared.image_ref.ImageRef.{ImageRef};
ghost use Rattle.ac_types.specs.declared.image_ref.RefError.TheVariants.{NoMemory};
ghost use Rattle.ac_types.specs.ErrorTexts.{ref_error_text};

use crate::ac_identifier::AcIdentifier;
use crate::labels::Labels;
use crate::memory;
use crate::ref_check::bad_place;
use crate::ref_parts::{read_digits_ref, read_named_ref};
use crate::try_copy::TryCopy;
use std::alloc::{AllocError, Global};
use std::error::Error;
use std::fmt;

/// What a user names an image by.
#[derive(Drop)]
pub enum ImageRef {
    /// A name, and labels which an image must have; a version is the first.
    Named { name: AcIdentifier, labels: Labels },
    /// The first `len` hex digits of an ID; the rest are zero bytes.
    ById { digits: [u8; 128], len: u8 },
}

impl ImageRef {
    /// The reference that a word is: `name[:version][,label=value]*`, with identifiers for names,
    /// a version and values that are not empty, and no name twice or `name`; a version is the
    /// first label, named `version`. A word that begins with `sha512-` is by ID, with 2 to 128
    /// lower-case hex digits. `BadRef` at the place where the first unreadable part begins:
    /// 0 for the name and for an ID, else the byte behind its `:` or `,`. `NoMemory` only for a
    /// word that is a reference.
    #[tactic(auto, using(crate::proofs::ReferenceLaw::reference_law))]
    pub fn parse(alloc: Global, word: &str) -> Result<ImageRef, RefError>
        ensures ok { IfOk result (λ found. reference word.now ≡ Ok found) }
        ensures err { IfErr result (IsRefError (reference word.now)) }
        ensures form { (found : ImageRef) → (reference word.now ≡ Ok found) ↔ IsReference word.now found }
    {
        match read_reference(alloc, word) {
            Ok(found) => Ok(found),
            Err(RefError::BadRef(place)) => Err(RefError::BadRef(place)),
            Err(RefError::NoMemory) => Err(match bad_place(word) {
                Some(place) => RefError::BadRef(place),
                None => RefError::NoMemory,
            }),
        }
    }

    /// An equal reference.
    pub fn copy(&self) -> Result<ImageRef, memory::NoMemory>
        ensures { IfOk result (λ copy. copy ≡ self.now) }
    {
        match self {
            ImageRef::Named { name, labels } => {
                Ok(ImageRef::Named {
                    name: name.copy()?,
                    labels: labels.copy()?,
                })
            }
            ImageRef::ById { digits, len } => {
                Ok(ImageRef::ById {
                    digits: *digits,
                    len: *len,
                })
            }
        }
    }
}

fn read_reference(alloc: Global, word: &str) -> Result<ImageRef, RefError>
    ensures { IsRead (reference word.now) result }
{
    match word.as_bytes().strip_prefix(b"sha512-") {
        Some(digits) => read_digits_ref(digits),
        None => read_named_ref(alloc, word),
    }
}

impl TryCopy for ImageRef {
    fn try_copy(&self) -> Result<ImageRef, memory::NoMemory> {
        self.copy()
    }
}

/// Why a word is no reference.
#[derive(Clone, Copy, Debug, PartialEq, Eq)]
pub enum RefError {
    /// The place of the byte at which the first part begins that is not readable.
    BadRef(usize),
    /// Memory ran out.
    NoMemory,
}

impl fmt::Display for RefError {
    ghost output = { λ error. Some (ref_error_text error) };

    fn fmt<W: fmt::Write>(&self, f: &mut fmt::Formatter<W>) -> fmt::Result {
        match self {
            RefError::BadRef(place) => write!(f, "bad reference at {place}"),
            RefError::NoMemory => write!(f, "out of memory"),
        }
    }
}

impl Error for RefError {}

impl From<memory::NoMemory> for RefError {
    ghost from_gives = { λ _ e. e ≡ NoMemory };

    fn from(_error: memory::NoMemory) -> RefError {
        RefError::NoMemory
    }
}

impl From<AllocError> for RefError {
    ghost from_gives = { λ _ e. e ≡ NoMemory };

    fn from(_error: AllocError) -> RefError {
        RefError::NoMemory
    }
}
