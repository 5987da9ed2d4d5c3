//! Fields that hold a list of elements of one type.
ghost use Rattle.std.specs.Prelude.{map, []};
ghost use Rattle.serde_json.specs.View.{view};
ghost use Rattle.ac_types.specs.FieldForms.{default};
ghost use Rattle.ac_types.specs.Outcomes.{Answers};
ghost use Rattle.app_section.specs.ListForms.{list_of, named_list_of};

use ac_types::{
    FaultKind, FromElement, NamedElement, ReadError, Sequence, field_path, list_field, read_each,
    read_named,
};
use serde_json::Value;
use std::alloc::Global;

/// The elements of a field of the object at a path: none where it is absent.
pub fn list_of<T: FromElement>(
    alloc: Global,
    value: &Value,
    at: &str,
    name: &str,
) -> Result<Sequence<T>, ReadError>
    ensures { Answers (map T.shown) (default [] (list_of T.form) at.now name.now (view value.now)) result }
{
    match list_field(alloc, value, at, name) {
        Ok(None) => Ok(Sequence::new(alloc)),
        Ok(Some(list)) => {
            let path = field_path(alloc, at, name)?;
            read_each(alloc, list.as_slice(), path.as_str())
        }
        Err(error) => Err(error),
    }
}

/// The same, where an element whose name came before has the fault `twice` at its `name`.
pub fn named_list_of<T: NamedElement>(
    alloc: Global,
    value: &Value,
    at: &str,
    name: &str,
    twice: FaultKind,
) -> Result<Sequence<T>, ReadError>
    ensures { Answers (map T.shown) (default [] (named_list_of twice T.name_of T.form) at.now name.now (view value.now)) result }
{
    match list_field(alloc, value, at, name) {
        Ok(None) => Ok(Sequence::new(alloc)),
        Ok(Some(list)) => {
            let path = field_path(alloc, at, name)?;
            read_named(alloc, list.as_slice(), path.as_str(), twice)
        }
        Err(error) => Err(error),
    }
}
