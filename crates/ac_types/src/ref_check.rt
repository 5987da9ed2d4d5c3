//! Where a word stops to be a reference, found without memory.
ghost use Rattle.std.specs.Prelude.{◌≡◌, ◌==◌, ◌≤◌, ◌<◌, ◌+◌, ◌^◌, ◌++◌, ◌∷◌, ℕ, Bool, List, Some, None, Ok, Err, map, option_map, IfOk, IfErr, length, take};
ghost use Rattle.std.specs.List.{slice_split, list_any};
ghost use Rattle.std.specs.Option.{is_some};
ghost use Rattle.ac_types.specs.declared.label.Label.{Label};
ghost use Rattle.ac_types.specs.References.{cut, label_of, label_part, labels_from, head_part, is_identifier, named, by_id, reference};
ghost use Rattle.ac_types.specs.ReferenceSteps.{StopsAt, parts_in, has_name, version_names, HasNames, IsHeadOf, parts_size};
ghost use Rattle.ac_types.specs.SeenTexts.{is_among};

use crate::ref_parts::{are_id_digits, cut_at_colon, cut_at_equals, end_of};
use crate::refusals::MAX_IDENTIFIER;
use crate::word_scan::{Separators, check_words};

/// The place of the first part of a word that is not readable; none where it is a reference.
#[tactic(auto, unfolding(crate::specs::References::reference))]
pub(crate) fn bad_place(word: &str) -> Option<usize>
    ensures { StopsAt (reference word.now) result }
{
    match word.as_bytes().strip_prefix(b"sha512-") {
        Some(digits) => bad_digits(digits),
        None => bad_part(word),
    }
}

fn bad_digits(digits: &[u8]) -> Option<usize>
    ensures { StopsAt (by_id digits.now) result }
{
    if are_id_digits(digits) { None } else { Some(0) }
}

fn bad_part(word: &str) -> Option<usize>
    ensures { StopsAt (named (slice_split (λ b. b == 44) word.now)) result }
{
    let _end = end_of(word);
    let (head, labels) = first_part(word);
    match head_version(head) {
        Ok(versioned) => bad_label(versioned, labels, head.len() + 1),
        Err(place) => Some(place),
    }
}

/// The first part of a text, and what stands behind its comma.
fn first_part(text: &str) -> (&str, Option<&str>)
    ensures { slice_split (λ b. b == 44) text.now ≡ result.0.now ∷ parts_in (option_map (λ t. t.now) result.1) }
{
    match cut_at_comma(text) {
        Some((part, rest)) => (part, Some(rest)),
        None => (text, None),
    }
}

fn cut_at_comma(text: &str) -> Option<(&str, &str)>
    ensures { option_map (λ p. (p.0.now, p.1.now)) result ≡ cut 44 text.now }
{
    text.split_once(',')
}

/// Whether the first part has a version; the place at which it is not readable.
fn head_version(part: &str) -> Result<bool, usize>
    ensures ok { IfOk result (IsHeadOf (head_part part.now (cut 58 part.now))) }
    ensures err { IfErr result (λ place. head_part part.now (cut 58 part.now) ≡ Err place) }
{
    match cut_at_colon(part) {
        Some((name, version)) => {
            if !is_identifier(name) {
                Err(0)
            } else if version.is_empty() {
                Err(name.len() + 1)
            } else {
                Ok(true)
            }
        }
        None => {
            if is_identifier(part) {
                Ok(false)
            } else {
                Err(0)
            }
        }
    }
}

fn is_identifier(text: &str) -> bool
    ensures { result ≡ is_identifier text.now }
{
    match check_words(text, Separators::Any, MAX_IDENTIFIER) {
        Ok(()) => true,
        Err(_) => false,
    }
}

/// The place of the first part that is no label, or whose name may not stand.
fn bad_label(versioned: bool, labels: Option<&str>, begin: usize) -> Option<usize>
    requires fits { begin + parts_size (parts_in (option_map (λ t. t.now) labels)) < 2 ^ 64 }
    ensures { (before : List Label) → map (λ (l : Label). l.name) before ≡ version_names versioned
        → StopsAt (labels_from begin before (parts_in (option_map (λ t. t.now) labels.entry))) result }
{
    let mut rest = labels;
    let mut place = begin;
    let mut count = 0;
    while let Some(text) = rest {
        let (part, more) = first_part(text);
        if !is_new_label(versioned, labels, count, part) {
            return Some(place);
        }
        place += part.len() + 1;
        count += 1;
        rest = more;
    }
    None
}

/// Whether a part is a label whose name isn't `name`, and none of those before it.
fn is_new_label(versioned: bool, labels: Option<&str>, count: usize, part: &str) -> bool
    ensures { (before more : List Label) → map (λ (l : Label). l.name) before ≡ version_names versioned
        → HasNames (take count (parts_in (option_map (λ t. t.now) labels.entry))) more
        → result ≡ is_some (label_part (before ++ more) part.now) }
{
    let Some(name) = label_name(part) else {
        return false;
    };
    if name == "name" {
        return false;
    }
    if is_version(versioned, name) {
        return false;
    }
    !came_before(labels, count, name)
}

fn is_version(versioned: bool, name: &str) -> bool
    ensures { result ≡ is_among name.now (version_names versioned) }
{
    versioned && name == "version"
}

/// The name of the label that a part is, where it is one.
fn label_name(part: &str) -> Option<&str>
    ensures { option_map (λ n. n.now) result ≡ option_map (λ (l : Label). l.name) (label_of (cut 61 part.now)) }
{
    let (name, value) = cut_at_equals(part)?;
    if value.is_empty() {
        return None;
    }
    if is_identifier(name) {
        Some(name)
    } else {
        None
    }
}

/// Whether one of the first parts has that name.
fn came_before(labels: Option<&str>, count: usize, name: &str) -> bool
    ensures { result ≡ list_any (λ p. has_name name.now (cut 61 p)) (take count (parts_in (option_map (λ t. t.now) labels.entry))) }
{
    let mut rest = labels;
    for _ in 0..count {
        let Some(text) = rest else {
            return false;
        };
        let (part, more) = first_part(text);
        if has_name(part, name) {
            return true;
        }
        rest = more;
    }
    false
}

fn has_name(part: &str, name: &str) -> bool
    ensures { result ≡ has_name name.now (cut 61 part.now) }
{
    match cut_at_equals(part) {
        Some((found, _)) => found == name,
        None => false,
    }
}
