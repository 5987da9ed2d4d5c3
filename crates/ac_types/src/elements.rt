//! Readers of the elements of a JSON list.
ghost use Rattle.std.specs.Prelude.{◌≡◌, ℕ, List, [], ◌∷◌, ◌++◌, map, IfOk};
ghost use Rattle.serde_json.specs.Data.{Data};
ghost use Rattle.serde_json.specs.View.{view};
ghost use Rattle.ac_types.specs.Outcomes.{Outcome, Answers};
ghost use Rattle.ac_types.specs.FieldForms.{each, each_named, named_once};
ghost use Rattle.ac_types.specs.JsonPaths.{element_path};
ghost use Rattle.ac_types.specs.SeenTexts.{HasSeen};

use crate::fault::{FaultKind, ReadError};
use crate::field_readers::field_fault;
use crate::json_path::write_element_path;
use crate::seen_texts::SeenTexts;
use crate::sequence::Sequence;
use serde_json::Value;
use std::alloc::Global;

/// What is read from one element of a JSON list. `Shown` is what the relation of the format has
/// in its place: the type itself, or a record with data where the type holds JSON. `form` is that
/// relation, and `name_of` the name by which an element comes once, where elements have one.
pub trait FromElement: Drop {
    ghost use Rattle.std.specs.Prelude.{List, ℕ};
    ghost use Rattle.serde_json.specs.Data.{Data};
    ghost use Rattle.ac_types.specs.Outcomes.{Outcome};

    ghost Shown: { Type 0 };

    ghost shown: { Self → Shown };

    ghost form: { List ℕ → Data → Outcome Shown };

    ghost name_of: { Shown → List ℕ };

    /// Reads the value at a path: its first fault otherwise, or `NoMemory`.
    fn read(alloc: Global, value: &Value, at: &str) -> Result<Self, ReadError>
        ensures { Answers shown (form at.now (view value.now)) result };
}

/// What is read from an element that has a name.
pub trait NamedElement: FromElement {
    /// The name's bytes.
    fn name(&self) -> &str
        ensures { result.now ≡ Self.name_of (Self.shown self.now) };
}

/// The elements of the list at a path, in order; the first fault of the first that has one.
pub fn read_each<T: FromElement>(
    alloc: Global,
    list: &[Value],
    at: &str,
) -> Result<Sequence<T>, ReadError>
    ensures { Answers (map T.shown) (each T.form at.now (map view list.now)) result }
{
    let mut items = Sequence::new(alloc);
    let mut path = String::new(alloc);
    for (i, value) in list.iter().enumerate() {
        match read_element(alloc, value, at, i, &mut path) {
            Ok(item) => items = items.push(item)?,
            Err(error) => return Err(error),
        }
    }
    Ok(items)
}

fn read_element<T: FromElement>(
    alloc: Global,
    value: &Value,
    at: &str,
    place: usize,
    path: &mut String,
) -> Result<T, ReadError>
    ensures { Answers T.shown (T.form (element_path at.now place) (view value.now)) result }
{
    write_element_path(path, at, place)?;
    T::read(alloc, value, path.as_str())
}

/// The same, where no name may come twice: the fault `twice` stands at the `name` of the element
/// whose name came before, after the faults of its fields.
pub fn read_named<T: NamedElement>(
    alloc: Global,
    list: &[Value],
    at: &str,
    twice: FaultKind,
) -> Result<Sequence<T>, ReadError>
    ensures { Answers (map T.shown) (each_named twice T.name_of T.form at.now (map view list.now)) result }
{
    let mut seen = SeenTexts::new(alloc);
    let mut items = Sequence::new(alloc);
    let mut path = String::new(alloc);
    for (i, value) in list.iter().enumerate() {
        write_element_path(&mut path, at, i)?;
        match read_new(alloc, value, path.as_str(), twice, &mut seen) {
            Ok(item) => items = items.push(item)?,
            Err(error) => return Err(error),
        }
    }
    Ok(items)
}

fn read_new<T: NamedElement>(
    alloc: Global,
    value: &Value,
    at: &str,
    twice: FaultKind,
    seen: &mut SeenTexts,
) -> Result<T, ReadError>
    ensures answers { (before : List T.Shown) → HasSeen seen.old (map T.name_of before)
        → Answers T.shown (named_once twice T.name_of T.form before at.now (view value.now)) result }
    ensures seen { IfOk result (λ item. (names : List (List ℕ)) → HasSeen seen.old names → HasSeen seen.new (names ++ T.name_of (T.shown item) ∷ [])) }
{
    let item: T = T::read(alloc, value, at)?;
    if seen.add(alloc, item.name())? {
        Ok(item)
    } else {
        Err(field_fault(alloc, at, "name", twice))
    }
}
