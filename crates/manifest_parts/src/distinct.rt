//! Lists of elements whose names come once each.
ghost use Rattle.std.specs.Prelude.{◌≡◌, ℕ, List, [], ◌∷◌, ◌++◌, map, IfOk};
ghost use Rattle.serde_json.specs.View.{view};
ghost use Rattle.ac_types.specs.FieldForms.{required, default};
ghost use Rattle.ac_types.specs.JsonPaths.{element_path};
ghost use Rattle.ac_types.specs.Outcomes.{Answers};
ghost use Rattle.ac_types.specs.SeenTexts.{HasSeen};
ghost use Rattle.manifest_parts.specs.DistinctForms.{distinct_list, each_distinct};

use ac_types::{
    FaultKind, ReadError, SeenTexts, Sequence, field_fault, field_path, list_field,
    write_element_path,
};
use serde_json::Value;
use std::alloc::Global;

/// What is read from an element of a list in which no name may come twice.
pub trait DistinctElement: Drop {
    ghost use Rattle.std.specs.Prelude.{List, ℕ};
    ghost use Rattle.serde_json.specs.Data.{Data};
    ghost use Rattle.ac_types.specs.Outcomes.{Outcome};

    ghost Shown: { Type 0 };

    ghost shown: { Self → Shown };

    ghost form: { List (List ℕ) → List ℕ → Data → Outcome Shown };

    ghost name_of: { Shown → List ℕ };

    /// Reads the value at a path, after elements whose names were seen, and takes its name in: its
    /// first fault otherwise, or `NoMemory`.
    fn read(alloc: Global, value: &Value, at: &str, seen: &mut SeenTexts) -> Result<Self, ReadError>
        ensures answers { (names : List (List ℕ)) → HasSeen seen.old names → Answers shown (form names at.now (view value.now)) result }
        ensures seen { IfOk result (λ item. (names : List (List ℕ)) → HasSeen seen.old names → HasSeen seen.new (names ++ name_of (shown item) ∷ [])) };
}

/// The elements of a field of the object at a path: none where it is absent.
pub fn distinct_list<T: DistinctElement>(
    alloc: Global,
    value: &Value,
    at: &str,
    name: &str,
) -> Result<Sequence<T>, ReadError>
    ensures { Answers (map T.shown) (default [] (distinct_list T.name_of T.form) at.now name.now (view value.now)) result }
{
    match list_field(alloc, value, at, name) {
        Ok(None) => Ok(Sequence::new(alloc)),
        Ok(Some(list)) => {
            let path = field_path(alloc, at, name)?;
            read_distinct(alloc, list.as_slice(), path.as_str())
        }
        Err(error) => Err(error),
    }
}

/// The same, where the field must be there: `Missing` otherwise.
pub fn required_distinct_list<T: DistinctElement>(
    alloc: Global,
    value: &Value,
    at: &str,
    name: &str,
) -> Result<Sequence<T>, ReadError>
    ensures { Answers (map T.shown) (required (distinct_list T.name_of T.form) at.now name.now (view value.now)) result }
{
    match list_field(alloc, value, at, name) {
        Ok(None) => Err(field_fault(alloc, at, name, FaultKind::Missing)),
        Ok(Some(list)) => {
            let path = field_path(alloc, at, name)?;
            read_distinct(alloc, list.as_slice(), path.as_str())
        }
        Err(error) => Err(error),
    }
}

fn read_distinct<T: DistinctElement>(
    alloc: Global,
    list: &[Value],
    at: &str,
) -> Result<Sequence<T>, ReadError>
    ensures { Answers (map T.shown) (each_distinct T.name_of T.form at.now (map view list.now)) result }
{
    let mut seen = SeenTexts::new(alloc);
    let mut items = Sequence::new(alloc);
    let mut path = String::new(alloc);
    for (i, value) in list.iter().enumerate() {
        match read_at(alloc, value, at, i, &mut path, &mut seen) {
            Ok(item) => items = items.push(item)?,
            Err(error) => return Err(error),
        }
    }
    Ok(items)
}

fn read_at<T: DistinctElement>(
    alloc: Global,
    value: &Value,
    at: &str,
    place: usize,
    path: &mut String,
    seen: &mut SeenTexts,
) -> Result<T, ReadError>
    ensures answers { (names : List (List ℕ)) → HasSeen seen.old names
        → Answers T.shown (T.form names (element_path at.now place) (view value.now)) result }
    ensures seen { IfOk result (λ item. (names : List (List ℕ)) → HasSeen seen.old names → HasSeen seen.new (names ++ T.name_of (T.shown item) ∷ [])) }
{
    write_element_path(path, at, place)?;
    T::read(alloc, value, path.as_str(), seen)
}
