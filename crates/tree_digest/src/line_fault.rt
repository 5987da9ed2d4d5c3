//! Why a line was not read.

ghost use Rattle.std.specs.Prelude.{◌≡◌, ◌≢◌};

use crate::escapes::FieldFault;

/// Why a line was not read.
#[derive(Clone, Copy, Debug, PartialEq, Eq)]
pub(crate) enum LineFault {
    /// It is of none of the forms.
    Bad,
    /// Its file is too long.
    TooLong,
    /// Memory ran out.
    NoMemory,
}

/// What the fault of a field is for its line.
pub(crate) fn line_fault(fault: FieldFault) -> LineFault
    ensures short { result ≢ LineFault.TooLong }
    ensures bad { result ≡ LineFault.Bad → fault ≡ FieldFault.Bad }
{
    match fault {
        FieldFault::Bad => LineFault::Bad,
        FieldFault::NoMemory => LineFault::NoMemory,
    }
}
