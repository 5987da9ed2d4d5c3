//! Readers of fields that must be there.
ghost use Rattle.std.specs.Prelude.{◌≡◌};
ghost use Rattle.serde_json.specs.View.{view};
ghost use Rattle.ac_types.specs.Outcomes.{Answers, Gives};
ghost use Rattle.ac_types.specs.FieldForms.{required, any, text, filled_text, whole};
ghost use Rattle.ac_types.specs.JsonPaths.{field_path};
ghost use Rattle.ac_types.specs.NameForms.{filled_name, filled_identifier, IsNameFaultAt};

use crate::ac_identifier::AcIdentifier;
use crate::ac_name::AcName;
use crate::fault::{FaultKind, ReadError};
use crate::field_readers::{field, field_fault, whole_number};
use crate::name_error::NameError;
use serde_json::Value;
use std::alloc::Global;

/// A field of the object at a path: `Missing` where it is absent or null.
pub fn required_field<'a>(
    alloc: Global,
    value: &'a Value,
    at: &str,
    name: &str,
) -> Result<&'a Value, ReadError>
    ensures { Answers (λ v. view v.now) (required any at.now name.now (view value.now)) result }
{
    match field(value, name) {
        Some(found) => Ok(found),
        None => Err(field_fault(alloc, at, name, FaultKind::Missing)),
    }
}

/// The text of a field that must be there and may be empty.
pub fn required_text<'a>(
    alloc: Global,
    value: &'a Value,
    at: &str,
    name: &str,
) -> Result<&'a str, ReadError>
    ensures { Answers (λ s. s.now) (required text at.now name.now (view value.now)) result }
{
    match required_field(alloc, value, at, name) {
        Ok(found) => match found.as_str() {
            Some(text) => Ok(text),
            None => Err(field_fault(alloc, at, name, FaultKind::WrongKind)),
        },
        Err(error) => Err(error),
    }
}

/// The text of a field that must be there; an empty one counts as missing.
pub fn filled_text<'a>(
    alloc: Global,
    value: &'a Value,
    at: &str,
    name: &str,
) -> Result<&'a str, ReadError>
    ensures { Answers (λ s. s.now) (required filled_text at.now name.now (view value.now)) result }
{
    match required_text(alloc, value, at, name) {
        Ok(text) => {
            if text.is_empty() {
                Err(field_fault(alloc, at, name, FaultKind::Missing))
            } else {
                Ok(text)
            }
        }
        Err(error) => Err(error),
    }
}

/// The whole number of a field that must be there.
pub fn required_whole(
    alloc: Global,
    value: &Value,
    at: &str,
    name: &str,
    max: u64,
) -> Result<u64, ReadError>
    ensures { Gives (required (whole max) at.now name.now (view value.now)) result }
{
    match required_field(alloc, value, at, name) {
        Ok(found) => match whole_number(found, max) {
            Ok(number) => Ok(number),
            Err(kind) => Err(field_fault(alloc, at, name, kind)),
        },
        Err(error) => Err(error),
    }
}

/// The port of a field that must be there: 0 to 65,535.
pub fn required_port(alloc: Global, value: &Value, at: &str, name: &str) -> Result<u16, ReadError>
    ensures { Gives (required (whole 65535) at.now name.now (view value.now)) result }
{
    match required_whole(alloc, value, at, name, 65_535) {
        Ok(number) => Ok(number as u16),
        Err(error) => Err(error),
    }
}

/// The AC Name of a field that must be there; an empty text counts as missing.
pub fn required_name(
    alloc: Global,
    value: &Value,
    at: &str,
    name: &str,
) -> Result<AcName, ReadError>
    ensures { Gives (required filled_name at.now name.now (view value.now)) result }
{
    match filled_text(alloc, value, at, name) {
        Ok(text) => match AcName::parse(alloc, text) {
            Ok(read) => Ok(read),
            Err(error) => Err(name_fault(alloc, at, name, error)),
        },
        Err(error) => Err(error),
    }
}

/// The AC Identifier of a field that must be there; an empty text counts as missing.
pub fn required_identifier(
    alloc: Global,
    value: &Value,
    at: &str,
    name: &str,
) -> Result<AcIdentifier, ReadError>
    ensures { Gives (required filled_identifier at.now name.now (view value.now)) result }
{
    match filled_text(alloc, value, at, name) {
        Ok(text) => match AcIdentifier::parse(alloc, text) {
            Ok(read) => Ok(read),
            Err(error) => Err(name_fault(alloc, at, name, error)),
        },
        Err(error) => Err(error),
    }
}

/// What a refused name is at a field.
pub fn name_fault(alloc: Global, at: &str, name: &str, error: NameError) -> ReadError
    ensures { IsNameFaultAt (field_path at.now name.now) error result }
{
    match error {
        NameError::Empty => field_fault(alloc, at, name, FaultKind::Empty),
        NameError::BadByte(_) => field_fault(alloc, at, name, FaultKind::BadByte),
        NameError::NoMemory => ReadError::NoMemory,
    }
}
