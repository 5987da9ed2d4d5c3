//! Fields that hold an image ID, or an identifier that may be absent.
ghost use Rattle.serde_json.specs.View.{view};
ghost use Rattle.ac_types.specs.FieldForms.{required, optional};
ghost use Rattle.ac_types.specs.NameForms.{identifier};
ghost use Rattle.ac_types.specs.Outcomes.{Gives};
ghost use Rattle.manifest_parts.specs.IdForms.{image_id, filled_id};

use ac_types::{
    AcIdentifier, FaultKind, ImageId, ReadError, field_fault, filled_text, name_fault, text_field,
};
use serde_json::Value;
use std::alloc::Global;

/// The image ID in a field of the object at a path, which must be there. `BadId` for another text.
pub fn required_id(alloc: Global, value: &Value, at: &str, name: &str) -> Result<ImageId, ReadError>
    ensures { Gives (required filled_id at.now name.now (view value.now)) result }
{
    match filled_text(alloc, value, at, name) {
        Ok(text) => match ImageId::parse(text) {
            Ok(id) => Ok(id),
            Err(_) => Err(field_fault(alloc, at, name, FaultKind::BadId)),
        },
        Err(error) => Err(error),
    }
}

/// The image ID in a field of the object at a path, where it is there. `BadId` for another text,
/// the empty one among them.
pub fn optional_id(
    alloc: Global,
    value: &Value,
    at: &str,
    name: &str,
) -> Result<Option<ImageId>, ReadError>
    ensures { Gives (optional image_id at.now name.now (view value.now)) result }
{
    match text_field(alloc, value, at, name) {
        Ok(None) => Ok(None),
        Ok(Some(text)) => match ImageId::parse(text) {
            Ok(id) => Ok(Some(id)),
            Err(_) => Err(field_fault(alloc, at, name, FaultKind::BadId)),
        },
        Err(error) => Err(error),
    }
}

/// The AC Identifier in a field of the object at a path, where it is there. `Empty` for the empty
/// text, `BadByte` for another that is none.
pub fn optional_identifier(
    alloc: Global,
    value: &Value,
    at: &str,
    name: &str,
) -> Result<Option<AcIdentifier>, ReadError>
    ensures { Gives (optional identifier at.now name.now (view value.now)) result }
{
    match text_field(alloc, value, at, name) {
        Ok(None) => Ok(None),
        Ok(Some(text)) => match AcIdentifier::parse(alloc, text) {
            Ok(read) => Ok(Some(read)),
            Err(error) => Err(name_fault(alloc, at, name, error)),
        },
        Err(error) => Err(error),
    }
}
