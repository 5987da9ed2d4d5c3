//! The JSON object that a document is.
ghost use Rattle.serde_json.specs.View.{view};
ghost use Rattle.ac_types.specs.Outcomes.{Answers};
ghost use Rattle.manifest_parts.specs.DocumentForm.{document, json_of, known_json};

use ac_types::{FaultKind, ReadError, fault_at, object_value};
use serde_json::Value;
use std::alloc::Global;

/// The most bytes of a document.
const MAX_BYTES: usize = 1_048_576;

/// The most bytes that are read of a manifest: one more than it may have, so that a longer one is
/// told from the longest.
pub const MOST_OF_MANIFEST: usize = 1_048_577;

/// The object that some bytes are as JSON. At `$`: `TooLong` for more than 1,048,576 bytes, then
/// `NotJson` for what is not JSON in UTF-8 or nests deeper than 127, then `WrongKind` for another
/// kind of value. A number beyond all floats counts as no JSON.
#[tactic(auto, unfolding(crate::specs::DocumentForm::document))]
pub fn read_object(alloc: Global, bytes: &[u8]) -> Result<Value, ReadError>
    ensures { Answers view (document bytes.now) result }
{
    if bytes.len() > MAX_BYTES {
        return Err(fault_at(alloc, "$", FaultKind::TooLong));
    }
    let value = read_json(alloc, bytes)?;
    object_value(alloc, &value, "$")?;
    Ok(value)
}

fn read_json(alloc: Global, bytes: &[u8]) -> Result<Value, ReadError>
    ensures { Answers view (known_json (json_of bytes.now)) result }
{
    match Value::from_slice(alloc, bytes) {
        Ok(value) => Ok(value),
        Err(error) => {
            if error.is_memory() {
                Err(ReadError::NoMemory)
            } else {
                Err(fault_at(alloc, "$", FaultKind::NotJson))
            }
        }
    }
}
