//! Why a text is no listing.

ghost use Rattle.std.specs.Prelude.{◌≡◌, Some};
ghost use Rattle.tree_digest.specs.ErrorTexts.{listing_error_text};
ghost use Rattle.tree_digest.specs.RefusalNumbers.{listing_error_number};

use crate::refusals::{BAD_LINE, FILE_TOO_LONG, NO_PARENT, NOT_SORTED, TOO_MANY};
use ac_types::NoMemory;
use std::error::Error;
use std::fmt;

/// Why a text is no listing, or a map has none. Lines are counted from 1.
#[derive(Clone, Copy, Debug, PartialEq, Eq)]
pub enum ListingError {
    /// The line is of none of the forms.
    BadLine(usize),
    /// The line's path isn't greater than the one before.
    NotSorted(usize),
    /// The parent of the line's path is no earlier directory.
    NoParent(usize),
    /// There are more lines or bytes than this limit.
    TooMany(u64),
    /// The line's file is longer than 1 GiB.
    FileTooLong(usize),
    /// Memory ran out.
    NoMemory,
}

impl ListingError {
    /// The number by which the refusal is printed; want of memory has none.
    pub fn number(self) -> Option<u8>
        ensures { result ≡ listing_error_number self }
    {
        match self {
            ListingError::BadLine(_) => Some(BAD_LINE),
            ListingError::NotSorted(_) => Some(NOT_SORTED),
            ListingError::NoParent(_) => Some(NO_PARENT),
            ListingError::TooMany(_) => Some(TOO_MANY),
            ListingError::FileTooLong(_) => Some(FILE_TOO_LONG),
            ListingError::NoMemory => None,
        }
    }
}

impl From<NoMemory> for ListingError {
    ghost use Rattle.std.specs.Prelude.{◌≡◌};
    ghost use Rattle.tree_digest.specs.declared.listing_error.ListingError.TheVariants.{NoMemory as OutOfMemory};

    ghost from_gives = { λ _ e. e ≡ OutOfMemory };

    fn from(_error: NoMemory) -> ListingError {
        ListingError::NoMemory
    }
}

impl fmt::Display for ListingError {
    ghost output = { λ error. Some (listing_error_text error) };

    fn fmt<W: fmt::Write>(&self, f: &mut fmt::Formatter<W>) -> fmt::Result {
        match self {
            ListingError::BadLine(n) => write!(f, "line {n} is of no form"),
            ListingError::NotSorted(n) => write!(f, "line {n} is out of order"),
            ListingError::NoParent(n) => write!(f, "line {n} has no parent"),
            ListingError::TooMany(limit) => write!(f, "more than {limit} lines or bytes"),
            ListingError::FileTooLong(n) => write!(f, "the file of line {n} is too long"),
            ListingError::NoMemory => write!(f, "out of memory"),
        }
    }
}

impl Error for ListingError {}
