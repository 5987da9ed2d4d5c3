//! Readers of the JSON value at a path.
ghost use Rattle.std.specs.Prelude.{◌≡◌};
ghost use Rattle.serde_json.specs.View.{view};
ghost use Rattle.ac_types.specs.Outcomes.{Answers, Gives};
ghost use Rattle.ac_types.specs.FieldForms.{text, filled_text, whole, an_object};

use crate::fault::{FaultKind, ReadError};
use crate::field_readers::{fault_at, whole_number};
use serde_json::Value;
use std::alloc::Global;

/// The value at a path, which has to be an object: `WrongKind` otherwise.
pub fn object_value<'a>(alloc: Global, value: &'a Value, at: &str) -> Result<&'a Value, ReadError>
    ensures { Answers (λ v. view v.now) (an_object at.now (view value.now)) result }
{
    if value.is_object() {
        Ok(value)
    } else {
        Err(fault_at(alloc, at, FaultKind::WrongKind))
    }
}

/// The text at a path, which may be empty: `WrongKind` otherwise.
pub fn text_value<'a>(alloc: Global, value: &'a Value, at: &str) -> Result<&'a str, ReadError>
    ensures { Answers (λ s. s.now) (text at.now (view value.now)) result }
{
    match value.as_str() {
        Some(text) => Ok(text),
        None => Err(fault_at(alloc, at, FaultKind::WrongKind)),
    }
}

/// The text at a path: `WrongKind` for another kind, `Missing` for an empty one.
pub fn filled_value<'a>(alloc: Global, value: &'a Value, at: &str) -> Result<&'a str, ReadError>
    ensures { Answers (λ s. s.now) (filled_text at.now (view value.now)) result }
{
    match text_value(alloc, value, at) {
        Ok(text) => {
            if text.is_empty() {
                Err(fault_at(alloc, at, FaultKind::Missing))
            } else {
                Ok(text)
            }
        }
        Err(error) => Err(error),
    }
}

/// The whole number at a path: `WrongKind`, `Fraction` and `OutOfRange` as in `whole_field`.
pub fn whole_value(alloc: Global, value: &Value, at: &str, max: u64) -> Result<u64, ReadError>
    ensures { Gives (whole max at.now (view value.now)) result }
{
    match whole_number(value, max) {
        Ok(number) => Ok(number),
        Err(kind) => Err(fault_at(alloc, at, kind)),
    }
}
