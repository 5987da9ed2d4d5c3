//! The first fields of both documents.
ghost use Rattle.std.specs.Prelude.{◌≡◌};
ghost use Rattle.std.specs.Prelude.{codes};
ghost use Rattle.serde_json.specs.View.{view};
ghost use Rattle.ac_types.specs.FieldForms.{required};
ghost use Rattle.ac_types.specs.JsonPaths.{field_path};
ghost use Rattle.ac_types.specs.Outcomes.{Answers, Gives};
ghost use Rattle.manifest_parts.specs.HeadForms.{ac_kind, ac_version, version_text};

use ac_types::{FaultKind, ReadError, Text, field_fault, filled_text};
use serde_json::Value;
use std::alloc::{AllocError, Global};

/// The document's kind, which must be this one: `WrongAcKind` otherwise.
pub fn required_kind<'a>(alloc: Global, value: &'a Value, kind: &str) -> Result<&'a str, ReadError>
    ensures { Answers (λ s. s.now) (required (ac_kind kind.now) (codes "$") (codes "acKind") (view value.now)) result }
{
    match filled_text(alloc, value, "$", "acKind") {
        Ok(found) => {
            if found == kind {
                Ok(found)
            } else {
                Err(field_fault(alloc, "$", "acKind", FaultKind::WrongAcKind))
            }
        }
        Err(error) => Err(error),
    }
}

/// The version of the specification: `BadAcVersion` for a text that is no semantic version.
pub fn required_version(alloc: Global, value: &Value) -> Result<Text, ReadError>
    ensures { Gives (required ac_version (codes "$") (codes "acVersion") (view value.now)) result }
{
    match filled_text(alloc, value, "$", "acVersion") {
        Ok(text) => read_version(alloc, text),
        Err(error) => Err(error),
    }
}

#[tactic(auto, unfolding(crate::specs::HeadForms::version_text))]
fn read_version(alloc: Global, text: &str) -> Result<Text, ReadError>
    ensures { Gives (version_text (field_path (codes "$") (codes "acVersion")) text.now) result }
{
    match semver::Version::parse(alloc, text) {
        Ok(_) => Ok(Text::of(alloc, text)?),
        Err(error) => {
            if error == semver::Error::from(AllocError) {
                Err(ReadError::NoMemory)
            } else {
                Err(field_fault(alloc, "$", "acVersion", FaultKind::BadAcVersion))
            }
        }
    }
}
