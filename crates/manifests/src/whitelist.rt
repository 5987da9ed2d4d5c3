//! The paths that an image keeps.
ghost use Rattle.std.specs.Prelude.{◌≡◌, ◌≤◌, ◌++◌, ◌∷◌, [], length, map, IfOk, IsTrue};
ghost use Rattle.serde_json.specs.View.{view};
ghost use Rattle.ac_types.specs.FieldForms.{default};
ghost use Rattle.ac_types.specs.JsonPaths.{element_path};
ghost use Rattle.ac_types.specs.Outcomes.{Gives};
ghost use Rattle.manifests.specs.Steps.{IsPathFault};
ghost use Rattle.manifests.specs.WhitelistForm.{entries, ends_in_slash, listed, listed_path, listed_text, whitelist, whitelist_of};

use ac_types::{
    FaultKind, NoMemory, ReadError, Sequence, element_path, fault_at, field_path, list_field,
    text_value,
};
use path_map::{AbsPath, Listed, ListedPaths, PathError};
use serde_json::Value;
use std::alloc::Global;

/// The paths in a field of the object at a path: none where it is absent.
pub(crate) fn whitelist_field(
    alloc: Global,
    value: &Value,
    at: &str,
    name: &str,
) -> Result<ListedPaths, ReadError>
    ensures { Gives (default [] whitelist at.now name.now (view value.now)) result }
{
    match list_field(alloc, value, at, name) {
        Ok(None) => Ok(Sequence::new(alloc)),
        Ok(Some(list)) => {
            let path = field_path(alloc, at, name)?;
            read_whitelist(alloc, list.as_slice(), path.as_str())
        }
        Err(error) => Err(error),
    }
}

fn read_whitelist(alloc: Global, list: &[Value], at: &str) -> Result<ListedPaths, ReadError>
    ensures { Gives (whitelist_of at.now (map view list.now)) result }
{
    let mut paths = Sequence::new(alloc);
    for (i, value) in list.iter().enumerate() {
        match read_listed(alloc, value, at, i) {
            Ok(entry) => paths = with_entry(paths, entry)?,
            Err(error) => return Err(error),
        }
    }
    Ok(paths)
}

/// The paths with an entry more, where there is one.
fn with_entry(paths: ListedPaths, entry: Option<Listed>) -> Result<ListedPaths, NoMemory>
    ensures { IfOk result (λ more. more ≡ paths ++ entries (entry ∷ [])) }
{
    match entry {
        Some(listed) => paths.push(listed),
        None => Ok(paths),
    }
}

fn read_listed(
    alloc: Global,
    value: &Value,
    at: &str,
    place: usize,
) -> Result<Option<Listed>, ReadError>
    ensures { Gives (listed (element_path at.now place) (view value.now)) result }
{
    let path = element_path(alloc, at, place)?;
    let text = text_value(alloc, value, path.as_str())?;
    read_text(alloc, text, path.as_str())
}

/// The entry that a text is: none for the root, one of a directory where a slash stands at its end.
#[tactic(auto, unfolding(crate::specs::WhitelistForm::listed_text))]
fn read_text(alloc: Global, text: &str, at: &str) -> Result<Option<Listed>, ReadError>
    ensures { Gives (listed_text at.now text.now) result }
{
    if text == "/" {
        return Ok(None);
    }
    if ends_in_slash(text) {
        read_path(alloc, &text[..text.len() - 1], true, at)
    } else {
        read_path(alloc, text, false, at)
    }
}

#[tactic(auto, unfolding(crate::specs::WhitelistForm::listed_path))]
fn read_path(alloc: Global, text: &str, empty: bool, at: &str) -> Result<Option<Listed>, ReadError>
    ensures { Gives (listed_path at.now empty text.now) result }
{
    match AbsPath::parse(alloc, text) {
        Ok(path) => Ok(Some(Listed { path, empty })),
        Err(error) => Err(path_error(alloc, at, error)),
    }
}

fn path_error(alloc: Global, at: &str, error: PathError) -> ReadError
    ensures { IsPathFault at.now error result }
{
    match error {
        PathError::NotAbsolute => fault_at(alloc, at, FaultKind::NotAbsolute),
        PathError::DotSegment => fault_at(alloc, at, FaultKind::DotSegment),
        PathError::SegmentLength => fault_at(alloc, at, FaultKind::SegmentLength),
        PathError::PathLength => fault_at(alloc, at, FaultKind::PathLength),
        PathError::NoMemory => ReadError::NoMemory,
    }
}

/// Whether a text ends with a slash.
fn ends_in_slash(text: &str) -> bool
    ensures value { result ≡ ends_in_slash text.now }
    ensures room { IsTrue result → 1 ≤ length text.now }
{
    let bytes = text.as_bytes();
    !bytes.is_empty() && bytes[bytes.len() - 1] == b'/'
}
