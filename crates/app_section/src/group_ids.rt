//! The IDs of groups.
ghost use Rattle.std.specs.Prelude.{map, []};
ghost use Rattle.serde_json.specs.View.{view};
ghost use Rattle.ac_types.specs.FieldForms.{default, whole, each};
ghost use Rattle.ac_types.specs.JsonPaths.{element_path};
ghost use Rattle.ac_types.specs.Outcomes.{Gives};
ghost use Rattle.app_section.specs.ListForms.{list_of};

use ac_types::{ReadError, Sequence, element_path, field_path, list_field, whole_value};
use serde_json::Value;
use std::alloc::Global;

/// A list of the IDs of groups. Contracts see its elements.
pub type GroupIds = Sequence<u32>;

/// The IDs in a field of the object at a path: none where it is absent.
pub(crate) fn group_ids(
    alloc: Global,
    value: &Value,
    at: &str,
    name: &str,
) -> Result<GroupIds, ReadError>
    ensures { Gives (default [] (list_of (whole 4294967295)) at.now name.now (view value.now)) result }
{
    match list_field(alloc, value, at, name) {
        Ok(None) => Ok(Sequence::new(alloc)),
        Ok(Some(list)) => {
            let path = field_path(alloc, at, name)?;
            read_ids(alloc, list.as_slice(), path.as_str())
        }
        Err(error) => Err(error),
    }
}

fn read_ids(alloc: Global, list: &[Value], at: &str) -> Result<GroupIds, ReadError>
    ensures { Gives (each (whole 4294967295) at.now (map view list.now)) result }
{
    let mut ids = Sequence::new(alloc);
    for (i, value) in list.iter().enumerate() {
        match read_id(alloc, value, at, i) {
            Ok(id) => ids = ids.push(id)?,
            Err(error) => return Err(error),
        }
    }
    Ok(ids)
}

fn read_id(alloc: Global, value: &Value, at: &str, place: usize) -> Result<u32, ReadError>
    ensures { Gives (whole 4294967295 (element_path at.now place) (view value.now)) result }
{
    let path = element_path(alloc, at, place)?;
    match whole_value(alloc, value, path.as_str(), 4_294_967_295) {
        Ok(number) => Ok(number as u32),
        Err(error) => Err(error),
    }
}
