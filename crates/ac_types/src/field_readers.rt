//! Readers of fields that may be absent.
ghost use Rattle.std.specs.Prelude.{◌≡◌, ℕ, List, MatchResult, option_map, map, false};
ghost use Rattle.serde_json.specs.View.{view};
ghost use Rattle.ac_types.specs.JsonPaths.{field_path};
ghost use Rattle.ac_types.specs.Outcomes.{reads, fails, Answers, Gives, IsFault};
ghost use Rattle.ac_types.specs.FieldForms.{present, optional, default, text, list, flag, whole};

use crate::fault::{Fault, FaultKind, ReadError};
use crate::json_path;
use crate::text::Text;
use serde_json::Value;
use std::alloc::Global;

/// The fault of that kind at a path, or `NoMemory`.
pub fn fault_at(alloc: Global, path: &str, kind: FaultKind) -> ReadError
    ensures { IsFault path.now kind result }
{
    match Text::of(alloc, path) {
        Ok(path) => ReadError::Bad(Fault { path, kind }),
        Err(_) => ReadError::NoMemory,
    }
}

/// The fault of that kind at a field of the object at a path, or `NoMemory`.
pub fn field_fault(alloc: Global, at: &str, name: &str, kind: FaultKind) -> ReadError
    ensures { IsFault (field_path at.now name.now) kind result }
{
    match json_path::field_path(alloc, at, name) {
        Ok(path) => ReadError::Bad(Fault { path, kind }),
        Err(_) => ReadError::NoMemory,
    }
}

/// The field of an object, where it is there and isn't null. Takes no memory.
pub fn field<'a>(value: &'a Value, name: &str) -> Option<&'a Value>
    ensures { option_map (λ v. view v.now) result ≡ present name.now (view value.now) }
{
    match value.get(name) {
        Some(found) => if found.is_null() { None } else { Some(found) },
        None => None,
    }
}

/// The text of a field of the object at a path, where it is there. `WrongKind` at the field.
pub fn text_field<'a>(
    alloc: Global,
    value: &'a Value,
    at: &str,
    name: &str,
) -> Result<Option<&'a str>, ReadError>
    ensures { Answers (λ o. option_map (λ s. s.now) o) (optional text at.now name.now (view value.now)) result }
{
    match field(value, name) {
        None => Ok(None),
        Some(found) => match found.as_str() {
            Some(text) => Ok(Some(text)),
            None => Err(field_fault(alloc, at, name, FaultKind::WrongKind)),
        },
    }
}

/// The elements of a field of the object at a path, where it is there. `WrongKind` at the field.
pub fn list_field<'a>(
    alloc: Global,
    value: &'a Value,
    at: &str,
    name: &str,
) -> Result<Option<&'a Vec<Value>>, ReadError>
    ensures { Answers (λ o. option_map (λ vs. map view vs.now.items) o) (optional list at.now name.now (view value.now)) result }
{
    match field(value, name) {
        None => Ok(None),
        Some(found) => match found.as_array() {
            Some(list) => Ok(Some(list)),
            None => Err(field_fault(alloc, at, name, FaultKind::WrongKind)),
        },
    }
}

/// The truth value of a field of the object at a path; false where it is absent. `WrongKind` at
/// the field.
pub fn flag_field(alloc: Global, value: &Value, at: &str, name: &str) -> Result<bool, ReadError>
    ensures { Gives (default false flag at.now name.now (view value.now)) result }
{
    match field(value, name) {
        None => Ok(false),
        Some(found) => match found.as_bool() {
            Some(truth) => Ok(truth),
            None => Err(field_fault(alloc, at, name, FaultKind::WrongKind)),
        },
    }
}

/// The whole number of a field of the object at a path, where it is there. At the field:
/// `WrongKind` for no number, `Fraction` for one that is kept neither as an unsigned nor as a
/// signed number of 64 bits, `OutOfRange` below zero and above `max`.
pub fn whole_field(
    alloc: Global,
    value: &Value,
    at: &str,
    name: &str,
    max: u64,
) -> Result<Option<u64>, ReadError>
    ensures { Gives (optional (whole max) at.now name.now (view value.now)) result }
{
    match field(value, name) {
        None => Ok(None),
        Some(found) => match whole_number(found, max) {
            Ok(number) => Ok(Some(number)),
            Err(kind) => Err(field_fault(alloc, at, name, kind)),
        },
    }
}

pub(crate) fn whole_number(value: &Value, max: u64) -> Result<u64, FaultKind>
    ensures { (at : List ℕ) → MatchResult result (λ n. whole max at (view value.now) ≡ reads n) (λ kind. whole max at (view value.now) ≡ fails at kind) }
{
    if let Some(number) = value.as_u64() {
        return if number <= max {
            Ok(number)
        } else {
            Err(FaultKind::OutOfRange)
        };
    }
    if value.as_i64().is_some() {
        return Err(FaultKind::OutOfRange);
    }
    Err(if value.is_number() {
        FaultKind::Fraction
    } else {
        FaultKind::WrongKind
    })
}
