//! The reading of labels.
ghost use Rattle.std.specs.Prelude.{◌≡◌, [], map};
ghost use Rattle.serde_json.specs.View.{view};
ghost use Rattle.ac_types.specs.FieldForms.{default, each};
ghost use Rattle.ac_types.specs.JsonPaths.{element_path};
ghost use Rattle.ac_types.specs.Outcomes.{Gives, IsFault};
ghost use Rattle.manifest_parts.specs.LabelsForm.{label, label_field, label_fault_kind, label_path, label_place, labels, labels_of};

use ac_types::{
    FaultKind, Label, LabelFault, Labels, ReadError, Sequence, Text, element_path, field_fault,
    field_path, list_field, object_value, required_identifier, required_text, write_element_path,
};
use serde_json::Value;
use std::alloc::Global;

/// The labels in a field of the object at a path: none where it is absent. First the faults of each
/// element in order, then those of all: a label named `name` or whose name came before, at its
/// `name`; then an unknown `os` and an unknown `arch`, at its `value`.
pub fn labels_field(alloc: Global, value: &Value, at: &str, name: &str) -> Result<Labels, ReadError>
    ensures { Gives (default [] labels at.now name.now (view value.now)) result }
{
    match list_field(alloc, value, at, name) {
        Ok(None) => Ok(Sequence::new(alloc)),
        Ok(Some(list)) => {
            let path = field_path(alloc, at, name)?;
            read_standing(alloc, list.as_slice(), path.as_str())
        }
        Err(error) => Err(error),
    }
}

#[tactic(auto, unfolding(crate::specs::LabelsForm::labels_of))]
fn read_standing(alloc: Global, list: &[Value], at: &str) -> Result<Labels, ReadError>
    ensures { Gives (labels_of at.now (map view list.now)) result }
{
    match read_labels(alloc, list, at) {
        Ok(labels) => match labels.first_fault(alloc)? {
            None => Ok(labels),
            Some(fault) => Err(label_error(alloc, at, fault)),
        },
        Err(error) => Err(error),
    }
}

fn read_labels(alloc: Global, list: &[Value], at: &str) -> Result<Labels, ReadError>
    ensures { Gives (each label at.now (map view list.now)) result }
{
    let mut labels = Sequence::new(alloc);
    let mut path = String::new(alloc);
    for (i, value) in list.iter().enumerate() {
        match read_label_at(alloc, value, at, i, &mut path) {
            Ok(label) => labels = labels.push(label)?,
            Err(error) => return Err(error),
        }
    }
    Ok(labels)
}

fn read_label_at(
    alloc: Global,
    value: &Value,
    at: &str,
    place: usize,
    path: &mut String,
) -> Result<Label, ReadError>
    ensures { Gives (label (element_path at.now place) (view value.now)) result }
{
    write_element_path(path, at, place)?;
    read_label(alloc, value, path.as_str())
}

#[tactic(auto, unfolding(crate::specs::LabelsForm::label))]
fn read_label(alloc: Global, value: &Value, at: &str) -> Result<Label, ReadError>
    ensures { Gives (label at.now (view value.now)) result }
{
    object_value(alloc, value, at)?;
    let name = required_identifier(alloc, value, at, "name")?;
    let text = required_text(alloc, value, at, "value")?;
    Ok(Label {
        name,
        value: Text::of(alloc, text)?,
    })
}

/// What the fault of a list of labels is in the list at a path.
fn label_error(alloc: Global, at: &str, fault: LabelFault) -> ReadError
    ensures { IsFault (label_path at.now fault) (label_fault_kind fault) result }
{
    match element_path(alloc, at, place_of(fault)) {
        Ok(path) => field_fault(alloc, path.as_str(), field_of(fault), kind_of(fault)),
        Err(_) => ReadError::NoMemory,
    }
}

fn place_of(fault: LabelFault) -> usize
    ensures { result ≡ label_place fault }
{
    match fault {
        LabelFault::LabelTwice(place) => place,
        LabelFault::LabelName(place) => place,
        LabelFault::BadOs(place) => place,
        LabelFault::BadArch(place) => place,
    }
}

fn field_of(fault: LabelFault) -> &'static str
    ensures { result.now ≡ label_field fault }
{
    match fault {
        LabelFault::LabelTwice(_) => "name",
        LabelFault::LabelName(_) => "name",
        LabelFault::BadOs(_) => "value",
        LabelFault::BadArch(_) => "value",
    }
}

fn kind_of(fault: LabelFault) -> FaultKind
    ensures { result ≡ label_fault_kind fault }
{
    match fault {
        LabelFault::LabelTwice(_) => FaultKind::LabelTwice,
        LabelFault::LabelName(_) => FaultKind::LabelName,
        LabelFault::BadOs(_) => FaultKind::BadOs,
        LabelFault::BadArch(_) => FaultKind::BadArch,
    }
}
