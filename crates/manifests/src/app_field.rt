//! The app's section as a field that may be absent.
ghost use Rattle.std.specs.Prelude.{option_map};
ghost use Rattle.serde_json.specs.View.{view};
ghost use Rattle.ac_types.specs.FieldForms.{optional};
ghost use Rattle.ac_types.specs.Outcomes.{Answers};
ghost use Rattle.app_section.specs.AppData.{app_data};
ghost use Rattle.app_section.specs.AppForm.{app};

use ac_types::{ReadError, field, field_path};
use app_section::App;
use serde_json::Value;
use std::alloc::Global;

/// The app's section in a field of the object at a path, where it is there.
pub(crate) fn optional_app(
    alloc: Global,
    value: &Value,
    at: &str,
    name: &str,
) -> Result<Option<App>, ReadError>
    ensures { Answers (λ found. option_map app_data found) (optional app at.now name.now (view value.now)) result }
{
    match field(value, name) {
        None => Ok(None),
        Some(found) => {
            let path = field_path(alloc, at, name)?;
            match App::read(alloc, found, path.as_str()) {
                Ok(section) => Ok(Some(section)),
                Err(error) => Err(error),
            }
        }
    }
}
