//! The paths of JSON values in a document.
ghost use Rattle.std.specs.Prelude.{◌≡◌, IfOk, OnOk};
ghost use Rattle.std.specs.String.{string_bytes};
ghost use Rattle.ac_types.specs.JsonPaths.{is_whole, field_path, element_path};

use crate::memory::NoMemory;
use crate::text::Text;
use std::alloc::Global;
use std::fmt::Write;

fn is_whole(at: &str) -> bool
    ensures { result ≡ is_whole at.now }
{
    at.is_empty() || at == "$"
}

/// The path of a field of the object at a path: the name alone in the whole document, else the
/// path, a dot and the name.
#[tactic(auto, unfolding(crate::specs::JsonPaths::field_path))]
pub fn field_path(alloc: Global, at: &str, name: &str) -> Result<Text, NoMemory>
    ensures { IfOk result (λ path. path ≡ field_path at.now name.now) }
{
    if is_whole(at) {
        return Text::of(alloc, name);
    }
    Ok(Text::from_string(format!(in alloc; "{at}.{name}")?))
}

/// The path of the element at a place of the list at a path, as `labels[1]`.
#[tactic(auto, unfolding(crate::specs::JsonPaths::element_path))]
pub fn element_path(alloc: Global, at: &str, place: usize) -> Result<Text, NoMemory>
    ensures { IfOk result (λ path. path ≡ element_path at.now place) }
{
    Ok(Text::from_string(format!(in alloc; "{at}[{place}]")?))
}

/// Writes the path of the element at a place over a text, for the elements of a list in turn: one
/// text is then enough for all of them.
#[tactic(auto, unfolding(crate::specs::JsonPaths::element_path))]
pub fn write_element_path(text: &mut String, at: &str, place: usize) -> Result<(), NoMemory>
    ensures path { OnOk result (string_bytes text.new ≡ element_path at.now place) }
{
    text.clear();
    match write!(text, "{at}[{place}]") {
        Ok(()) => Ok(()),
        Err(_) => Err(NoMemory),
    }
}
