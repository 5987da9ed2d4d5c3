//! A program word and its arguments.
ghost use Rattle.std.specs.Prelude.{◌≡◌, ℕ, List, length, map, [], codes};
ghost use Rattle.serde_json.specs.View.{view};
ghost use Rattle.ac_types.specs.FieldForms.{required, default};
ghost use Rattle.ac_types.specs.JsonPaths.{element_path, field_path};
ghost use Rattle.ac_types.specs.Outcomes.{Gives};
ghost use Rattle.app_section.specs.ExecForm.{word, words, exec, filled_exec};

use crate::env_var::has_nul;
use crate::places::program_text;
use ac_types::{
    FaultKind, ReadError, Text, Texts, element_path, fault_at, field_fault, field_path, list_field,
    text_value,
};
use serde_json::Value;
use std::alloc::Global;

/// The words of the field `exec` of the object at a path: none where it is absent.
pub(crate) fn exec_field(alloc: Global, value: &Value, at: &str) -> Result<Texts, ReadError>
    ensures { Gives (default [] exec at.now (codes "exec") (view value.now)) result }
{
    match list_field(alloc, value, at, "exec") {
        Ok(None) => Ok(Texts::new(alloc)),
        Ok(Some(list)) => read_at_exec(alloc, list.as_slice(), at),
        Err(error) => Err(error),
    }
}

/// The same, where there has to be a word: `Missing` otherwise.
pub(crate) fn required_exec(alloc: Global, value: &Value, at: &str) -> Result<Texts, ReadError>
    ensures { Gives (required filled_exec at.now (codes "exec") (view value.now)) result }
{
    match list_field(alloc, value, at, "exec") {
        Ok(None) => Err(field_fault(alloc, at, "exec", FaultKind::Missing)),
        Ok(Some(list)) => {
            if list.is_empty() {
                Err(field_fault(alloc, at, "exec", FaultKind::Missing))
            } else {
                read_at_exec(alloc, list.as_slice(), at)
            }
        }
        Err(error) => Err(error),
    }
}

fn read_at_exec(alloc: Global, list: &[Value], at: &str) -> Result<Texts, ReadError>
    ensures { Gives (words (field_path at.now (codes "exec")) (map view list.now)) result }
{
    let path = field_path(alloc, at, "exec")?;
    read_words(alloc, list, path.as_str())
}

fn read_words(alloc: Global, list: &[Value], at: &str) -> Result<Texts, ReadError>
    ensures { Gives (words at.now (map view list.now)) result }
{
    let mut words = Texts::new(alloc);
    for (i, value) in list.iter().enumerate() {
        match read_word(alloc, value, at, i) {
            Ok(word) => words = words.push(word)?,
            Err(error) => return Err(error),
        }
    }
    Ok(words)
}

fn read_word(alloc: Global, value: &Value, at: &str, place: usize) -> Result<Text, ReadError>
    ensures { (before : List (List ℕ)) → length before ≡ place
        → Gives (word before (element_path at.now place) (view value.now)) result }
{
    let path = element_path(alloc, at, place)?;
    let text = text_value(alloc, value, path.as_str())?;
    if place == 0 {
        return match program_text(alloc, text)? {
            Some(program) => Ok(program),
            None => Err(fault_at(alloc, path.as_str(), FaultKind::BadPath)),
        };
    }
    if has_nul(text) {
        return Err(fault_at(alloc, path.as_str(), FaultKind::BadPath));
    }
    Ok(Text::of(alloc, text)?)
}
