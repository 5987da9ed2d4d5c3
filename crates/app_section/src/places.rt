//! Places, which are absolute paths with no step upward, and program words.
ghost use Rattle.std.specs.Prelude.{◌≡◌, ◌++◌, IfOk, codes, map, string_bytes};
ghost use Rattle.std.specs.List.{slice_split, list_any};
ghost use Rattle.std.specs.Str.{bytes_eq};
ghost use Rattle.serde_json.specs.View.{view};
ghost use Rattle.ac_types.specs.FieldForms.{required, optional};
ghost use Rattle.ac_types.specs.Outcomes.{Gives};
ghost use Rattle.app_section.specs.Places.{is_rooted, is_dropped, is_slash, with_slash, place_text, program_text, joined, filled_place, place_field};

use crate::env_var::has_nul;
use ac_types::{FaultKind, NoMemory, ReadError, Text, field_fault, filled_text, text_field};
use serde_json::Value;
use std::alloc::{AllocError, Global};

/// The place in a field of the object at a path, which must be there. `BadPath` for a text that
/// is no place.
pub fn required_place(alloc: Global, value: &Value, at: &str, name: &str) -> Result<Text, ReadError>
    ensures { Gives (required filled_place at.now name.now (view value.now)) result }
{
    match filled_text(alloc, value, at, name) {
        Ok(text) => match place_text(alloc, text) {
            Ok(Some(place)) => Ok(place),
            Ok(None) => Err(field_fault(alloc, at, name, FaultKind::BadPath)),
            Err(_) => Err(ReadError::NoMemory),
        },
        Err(error) => Err(error),
    }
}

/// The place in a field of the object at a path, where it is there. `BadPath` for a text that is
/// no place, the empty one among them.
pub fn optional_place(
    alloc: Global,
    value: &Value,
    at: &str,
    name: &str,
) -> Result<Option<Text>, ReadError>
    ensures { Gives (optional place_field at.now name.now (view value.now)) result }
{
    match text_field(alloc, value, at, name) {
        Ok(None) => Ok(None),
        Ok(Some(text)) => match place_text(alloc, text) {
            Ok(Some(place)) => Ok(Some(place)),
            Ok(None) => Err(field_fault(alloc, at, name, FaultKind::BadPath)),
            Err(_) => Err(ReadError::NoMemory),
        },
        Err(error) => Err(error),
    }
}

/// The word as it is held, where it is a program word: a place, or a text with no `/` that isn't
/// empty and holds no NUL.
#[tactic(auto, unfolding(crate::specs::Places::program_text))]
pub(crate) fn program_text(alloc: Global, word: &str) -> Result<Option<Text>, NoMemory>
    ensures { IfOk result (λ held. held ≡ program_text word.now) }
{
    if is_rooted(word) {
        return place_text(alloc, word);
    }
    if word.is_empty() || has_nul(word) || has_slash(word) {
        return Ok(None);
    }
    Ok(Some(Text::of(alloc, word)?))
}

/// The place that the text is, with its empty segments and those that are `.` left out. None for a text
/// that is no place.
#[tactic(auto, unfolding(crate::specs::Places::place_text))]
pub fn place_text(alloc: Global, text: &str) -> Result<Option<Text>, NoMemory>
    ensures { IfOk result (λ held. held ≡ place_text text.now) }
{
    if !is_rooted(text) || has_nul(text) {
        return Ok(None);
    }
    let segments = segments_of(alloc, text)?;
    if has_parent(segments.as_slice()) {
        return Ok(None);
    }
    Ok(Some(joined(alloc, segments.as_slice())?))
}

fn segments_of(alloc: Global, text: &str) -> Result<Vec<&str>, AllocError>
    ensures { IfOk result (λ found. map (λ s. s.now) found.items ≡ slice_split is_slash text.now) }
{
    text.split('/').collect(alloc)
}

fn joined(alloc: Global, segments: &[&str]) -> Result<Text, NoMemory>
    ensures { IfOk result (λ place. place ≡ joined (map (λ s. s.now) segments.now)) }
{
    let mut place = String::new(alloc);
    for segment in segments {
        place = with_segment(place, *segment)?;
    }
    if place.is_empty() {
        place.push_str("/")?;
    }
    Ok(Text::from_string(place))
}

fn with_segment(place: String, segment: &str) -> Result<String, NoMemory>
    ensures { IfOk result (λ longer. string_bytes longer ≡ string_bytes place ++ with_slash segment.now) }
{
    let mut place = place;
    if !is_dropped(segment) {
        place.push_str("/")?;
        place.push_str(segment)?;
    }
    Ok(place)
}

fn has_parent(segments: &[&str]) -> bool
    ensures { result ≡ list_any (λ s. bytes_eq s.now (codes "..")) segments.now }
{
    segments.iter().any(|segment| *segment == "..")
}

fn is_dropped(segment: &str) -> bool
    ensures { result ≡ is_dropped segment.now }
{
    segment.is_empty() || segment == "."
}

fn is_rooted(text: &str) -> bool
    ensures { result ≡ is_rooted text.now }
{
    match text.as_bytes().first() {
        Some(byte) => *byte == b'/',
        None => false,
    }
}

fn has_slash(text: &str) -> bool
    ensures { result ≡ list_any is_slash text.now }
{
    text.as_bytes().iter().any(|b| *b == b'/')
}
