//! A label, and the faults of labels.
ghost use Rattle.std.specs.Prelude.{◌≡◌, IfOk, Some};
ghost use Rattle.ac_types.specs.ErrorTexts.{label_fault_text};

use crate::ac_identifier::AcIdentifier;
use crate::memory::NoMemory;
use crate::text::Text;
use crate::try_copy::TryCopy;
use std::error::Error;
use std::fmt;

/// A label of an image.
#[derive(Drop)]
pub struct Label {
    pub name: AcIdentifier,
    pub value: Text,
}

impl Label {
    /// An equal label.
    pub fn copy(&self) -> Result<Label, NoMemory>
        ensures { IfOk result (λ copy. copy ≡ self.now) }
    {
        Ok(Label {
            name: self.name.copy()?,
            value: self.value.copy()?,
        })
    }
}

impl TryCopy for Label {
    fn try_copy(&self) -> Result<Label, NoMemory> {
        self.copy()
    }
}

/// Why a list of labels may not stand, with the place of the label.
#[derive(Clone, Copy, Debug, PartialEq, Eq)]
pub enum LabelFault {
    /// The label's name came before.
    LabelTwice(usize),
    /// The label is named `name`.
    LabelName(usize),
    /// The operating system is not known.
    BadOs(usize),
    /// The operating system does not run on the architecture.
    BadArch(usize),
}

impl fmt::Display for LabelFault {
    ghost output = { λ fault. Some (label_fault_text fault) };

    fn fmt<W: fmt::Write>(&self, f: &mut fmt::Formatter<W>) -> fmt::Result {
        match self {
            LabelFault::LabelTwice(place) => write!(f, "label {place} has a name that came before"),
            LabelFault::LabelName(place) => write!(f, "label {place} is named name"),
            LabelFault::BadOs(place) => write!(f, "label {place} is no known os"),
            LabelFault::BadArch(place) => write!(f, "label {place} is no architecture of the os"),
        }
    }
}

impl Error for LabelFault {}
