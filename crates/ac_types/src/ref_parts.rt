//! The parts of a reference, read one after the other.
ghost use Rattle.std.specs.Prelude.{◌≡◌, ◌==◌, ◌⊎◌, true, false, ◌≤◌, ◌<◌, ◌+◌, ◌^◌, ◌++◌, ◌∷◌, [], ℕ, List, Some, None, Ok, Err, map, option_map, MatchOption, MatchResult, IfOk, IfErr, length, drop, codes};
ghost use Rattle.std.specs.List.{slice_split, list_all};
ghost use Rattle.ac_types.specs.declared.label.Label.{Label};
ghost use Rattle.ac_types.specs.References.{cut, label_of, label_part, labels_from, head_part, is_identifier, version_labels, with_name, named, by_id, are_id_digits, is_lower_digit};
ghost use Rattle.ac_types.specs.ReferenceSteps.{IsRead, IsRefused, parts_size};
ghost use Rattle.ac_types.specs.SeenTexts.{HasSeen};

use crate::ac_identifier::AcIdentifier;
use crate::image_ref::{ImageRef, RefError};
use crate::label::Label;
use crate::labels::Labels;
use crate::memory::NoMemory;
use crate::name_error::NameError;
use crate::refusals::{ID_DIGITS, MIN_DIGITS};
use crate::seen_texts::SeenTexts;
use crate::sequence::Sequence;
use crate::text::Text;
use std::alloc::{AllocError, Global};

/// The parts of a word between its commas.
fn parts_of(alloc: Global, word: &str) -> Result<Vec<&str>, AllocError>
    ensures { IfOk result (λ v. map (λ x. x.now) v.items ≡ slice_split (λ b. b == 44) word.now) }
{
    word.split(',').collect(alloc)
}

pub(crate) fn cut_at_colon(text: &str) -> Option<(&str, &str)>
    ensures { option_map (λ p. (p.0.now, p.1.now)) result ≡ cut 58 text.now }
{
    text.split_once(':')
}

pub(crate) fn cut_at_equals(text: &str) -> Option<(&str, &str)>
    ensures { option_map (λ p. (p.0.now, p.1.now)) result ≡ cut 61 text.now }
{
    text.split_once('=')
}

/// The label that a name and a value are, where they are.
fn label_of(alloc: Global, name: &str, value: &str) -> Result<Option<Label>, NoMemory>
    ensures label { IfOk result (λ o. o ≡ label_of (Some (name.now, value.now))) }
    ensures memory { IfErr result (λ _. is_identifier name.now ≡ true) }
{
    if value.is_empty() {
        return Ok(None);
    }
    match AcIdentifier::parse(alloc, name) {
        Ok(name) => {
            Ok(Some(Label {
                name,
                value: Text::of(alloc, value)?,
            }))
        }
        Err(NameError::NoMemory) => Err(NoMemory),
        Err(_) => Ok(None),
    }
}

/// The label of a part that begins at a place; its name is then taken in.
fn read_label(
    alloc: Global,
    part: &str,
    place: usize,
    seen: &mut SeenTexts,
) -> Result<Label, RefError>
    ensures label { IfOk result (λ label. (before : List Label) → HasSeen seen.old (map (λ (l : Label). l.name) before) → label_part before part.now ≡ Some label) }
    ensures seen { IfOk result (λ label. (names : List (List ℕ)) → HasSeen seen.old names → HasSeen seen.new (names ++ label.name ∷ [])) }
    ensures err { IfErr result (λ e. (e ≡ RefError.NoMemory) ⊎ ((e ≡ RefError.BadRef place)
        × ((before : List Label) → HasSeen seen.old (map (λ (l : Label). l.name) before) → label_part before part.now ≡ None))) }
{
    let label = match cut_at_equals(part) {
        Some((name, value)) => label_of(alloc, name, value)?,
        None => return Err(RefError::BadRef(place)),
    };
    match label {
        Some(label) => {
            if label.name.as_str() == "name" || !seen.add(alloc, label.name.as_str())? {
                return Err(RefError::BadRef(place));
            }
            Ok(label)
        }
        None => Err(RefError::BadRef(place)),
    }
}

/// The labels of parts of which the first begins at a place, behind those that came before.
fn read_labels(
    alloc: Global,
    parts: &[&str],
    begin: usize,
    before: Labels,
    mut seen: SeenTexts,
) -> Result<Labels, RefError>
    requires seen { HasSeen seen (map (λ (l : Label). l.name) before) }
    requires fits { begin + parts_size (map (λ p. p.now) parts.now) < 2 ^ 64 }
    ensures { IsRead (labels_from begin before (map (λ p. p.now) parts.now)) result }
{
    let mut labels = before;
    let mut place = begin;
    for part in parts {
        match read_label(alloc, part, place, &mut seen) {
            Ok(label) => {
                labels = labels.push(label)?;
                place += part.len() + 1;
            }
            Err(error) => return Err(error),
        }
    }
    Ok(labels)
}

/// The name and the version of the first part.
fn read_head(alloc: Global, part: &str) -> Result<(AcIdentifier, Option<Text>), RefError>
    ensures ok { IfOk result (λ h. head_part part.now (cut 58 part.now) ≡ Ok (h.0, version_labels h.1)) }
    ensures err { IfErr result (IsRefused (head_part part.now (cut 58 part.now))) }
{
    match cut_at_colon(part) {
        Some((name, version)) => read_versioned(alloc, name, version),
        None => match identifier(alloc, part) {
            Ok(name) => Ok((name, None)),
            Err(error) => Err(error),
        },
    }
}

fn read_versioned(
    alloc: Global,
    name: &str,
    version: &str,
) -> Result<(AcIdentifier, Option<Text>), RefError>
    ensures ok { (part : List ℕ) → IfOk result (λ h. head_part part (Some (name.now, version.now)) ≡ Ok (h.0, version_labels h.1)) }
    ensures err { (part : List ℕ) → IfErr result (IsRefused (head_part part (Some (name.now, version.now)))) }
{
    match identifier(alloc, name) {
        Ok(read) => {
            if version.is_empty() {
                return Err(RefError::BadRef(name.len() + 1));
            }
            match Text::of(alloc, version) {
                Ok(version) => Ok((read, Some(version))),
                Err(NoMemory) => Err(RefError::NoMemory),
            }
        }
        Err(error) => Err(error),
    }
}

fn identifier(alloc: Global, text: &str) -> Result<AcIdentifier, RefError>
    ensures name { IfOk result (λ name. name ≡ text.now) }
    ensures ok { IfOk result (λ _. is_identifier text.now ≡ true) }
    ensures err { IfErr result (λ e. (e ≡ RefError.NoMemory) ⊎ ((e ≡ RefError.BadRef 0) × (is_identifier text.now ≡ false))) }
    ensures memory { IfErr result (λ e. e ≡ RefError.NoMemory → is_identifier text.now ≡ true) }
{
    match AcIdentifier::parse(alloc, text) {
        Ok(name) => Ok(name),
        Err(NameError::NoMemory) => Err(RefError::NoMemory),
        Err(_) => Err(RefError::BadRef(0)),
    }
}

/// The label that a version is.
fn version_label(alloc: Global, value: Text) -> Result<Label, RefError>
    ensures label { IfOk result (λ l. l ≡ record { name = codes "version"; value = value }) }
    ensures err { IfErr result (λ e. e ≡ RefError.NoMemory) }
{
    match AcIdentifier::parse(alloc, "version") {
        Ok(name) => Ok(Label { name, value }),
        // The text is an identifier, so memory ran out.
        Err(_) => Err(RefError::NoMemory),
    }
}

fn first_labels(
    alloc: Global,
    version: Option<Text>,
    seen: &mut SeenTexts,
) -> Result<Labels, RefError>
    ensures labels { IfOk result (λ ls. ls ≡ version_labels version) }
    ensures seen { IfOk result (λ ls. HasSeen seen.old [] → HasSeen seen.new (map (λ (l : Label). l.name) ls)) }
    ensures err { IfErr result (λ e. e ≡ RefError.NoMemory) }
{
    let labels = Sequence::new(alloc);
    match version {
        Some(value) => {
            let label = version_label(alloc, value)?;
            seen.add(alloc, label.name.as_str())?;
            Ok(labels.push(label)?)
        }
        None => Ok(labels),
    }
}

/// The reference of a name and a version, and of the parts behind them.
fn read_rest(
    alloc: Global,
    name: AcIdentifier,
    version: Option<Text>,
    parts: &[&str],
    begin: usize,
) -> Result<ImageRef, RefError>
    requires { begin + parts_size (map (λ p. p.now) parts.now) < 2 ^ 64 }
    ensures { IsRead (with_name name (labels_from begin (version_labels version) (map (λ p. p.now) parts.now))) result }
{
    let mut seen = SeenTexts::new(alloc);
    match first_labels(alloc, version, &mut seen) {
        Ok(before) => match read_labels(alloc, parts, begin, before, seen) {
            Ok(labels) => Ok(ImageRef::Named { name, labels }),
            Err(error) => Err(error),
        },
        Err(error) => Err(error),
    }
}

/// The reference of all parts of a word.
fn read_parts(alloc: Global, parts: &[&str]) -> Result<ImageRef, RefError>
    requires { parts_size (map (λ p. p.now) parts.now) < 2 ^ 64 }
    ensures { IsRead (named (map (λ p. p.now) parts.now)) result }
{
    if parts.is_empty() {
        return Err(RefError::BadRef(0));
    }
    let head = parts[0];
    match read_head(alloc, head) {
        Ok((name, version)) => read_rest(alloc, name, version, &parts[1..], head.len() + 1),
        Err(error) => Err(error),
    }
}

pub(crate) fn end_of(word: &str) -> usize
    ensures { result ≡ length word.now + 1 }
{
    word.len() + 1
}

/// The reference by name that a word is.
pub(crate) fn read_named_ref(alloc: Global, word: &str) -> Result<ImageRef, RefError>
    ensures { IsRead (named (slice_split (λ b. b == 44) word.now)) result }
{
    // Each place in the word, and the one behind it, is a number that `usize` has.
    let _end = end_of(word);
    match parts_of(alloc, word) {
        Ok(parts) => read_parts(alloc, parts.as_slice()),
        Err(_) => Err(RefError::NoMemory),
    }
}

/// The reference by ID that some digits are.
pub(crate) fn read_digits_ref(digits: &[u8]) -> Result<ImageRef, RefError>
    ensures { IsRead (by_id digits.now) result }
{
    if !are_id_digits(digits) {
        return Err(RefError::BadRef(0));
    }
    let mut room = [0; 128];
    fill(&mut room, digits);
    Ok(ImageRef::ById {
        digits: room,
        len: digits.len() as u8,
    })
}

/// Whether some digits are the first of an ID: 2 to 128 lower-case hex digits.
pub(crate) fn are_id_digits(digits: &[u8]) -> bool
    ensures digits { result ≡ are_id_digits digits.now }
    ensures fits { result ≡ true → length digits.now ≤ ID_DIGITS }
{
    digits.len() >= MIN_DIGITS && digits.len() <= ID_DIGITS && are_lower_digits(digits)
}

fn are_lower_digits(digits: &[u8]) -> bool
    ensures { result ≡ list_all is_lower_digit digits.now }
{
    digits.iter().all(|digit| is_lower_digit(*digit))
}

fn is_lower_digit(byte: u8) -> bool
    ensures { result ≡ is_lower_digit byte }
{
    matches!(byte, b'0'..=b'9' | b'a'..=b'f')
}

fn fill(room: &mut [u8], bytes: &[u8])
    requires { length bytes.now ≤ length room.old }
    ensures { room.new ≡ bytes.now ++ drop (length bytes.now) room.old }
{
    room[..bytes.len()].copy_from_slice(bytes);
}
