//! The fields of each kind of volume.
ghost use Rattle.std.specs.Prelude.{◌≡◌, codes};
ghost use Rattle.std.specs.List.{list_all};
ghost use Rattle.serde_json.specs.View.{view};
ghost use Rattle.ac_types.specs.FieldForms.{required, default, whole};
ghost use Rattle.ac_types.specs.Outcomes.{Gives};
ghost use Rattle.app_section.specs.Places.{filled_place};
ghost use Rattle.manifests.specs.VolumeForm.{empty, host, is_mode, is_octal, kind_of, mode, or_bad_volume};

use crate::volume::VolumeKind;
use ac_types::{FaultKind, ReadError, Text, fault_at, flag_field, text_field, whole_field};
use app_section::required_place;
use serde_json::Value;
use std::alloc::Global;

/// What the fields of the volume at a path are for a kind of that name: `BadVolume` at the volume
/// for another name.
#[tactic(auto, unfolding(crate::specs::VolumeForm::kind_of))]
pub(crate) fn read_kind(
    alloc: Global,
    value: &Value,
    at: &str,
    kind: &str,
) -> Result<VolumeKind, ReadError>
    ensures { Gives (kind_of kind.now at.now (view value.now)) result }
{
    if kind == "host" {
        return read_host(alloc, value, at);
    }
    if kind == "empty" {
        return read_empty(alloc, value, at);
    }
    Err(fault_at(alloc, at, FaultKind::BadVolume))
}

#[tactic(auto, unfolding(crate::specs::VolumeForm::host))]
fn read_host(alloc: Global, value: &Value, at: &str) -> Result<VolumeKind, ReadError>
    ensures { Gives (host at.now (view value.now)) result }
{
    let source = read_source(alloc, value, at)?;
    let read_only = flag_field(alloc, value, at, "readOnly")?;
    Ok(VolumeKind::Host { source, read_only })
}

/// The source, where each fault is one of the volume.
fn read_source(alloc: Global, value: &Value, at: &str) -> Result<Text, ReadError>
    ensures { Gives (or_bad_volume at.now (required filled_place at.now (codes "source") (view value.now))) result }
{
    match required_place(alloc, value, at, "source") {
        Ok(place) => Ok(place),
        Err(ReadError::Bad(_)) => Err(fault_at(alloc, at, FaultKind::BadVolume)),
        Err(ReadError::NoMemory) => Err(ReadError::NoMemory),
    }
}

#[tactic(auto, unfolding(crate::specs::VolumeForm::empty))]
fn read_empty(alloc: Global, value: &Value, at: &str) -> Result<VolumeKind, ReadError>
    ensures { Gives (empty at.now (view value.now)) result }
{
    let mode = read_mode(alloc, value, at)?;
    let uid = id_or_zero(alloc, value, at, "uid")?;
    let gid = id_or_zero(alloc, value, at, "gid")?;
    Ok(VolumeKind::Empty { mode, uid, gid })
}

/// The mode, where each fault is one of the volume.
fn read_mode(alloc: Global, value: &Value, at: &str) -> Result<Text, ReadError>
    ensures { Gives (or_bad_volume at.now (default (codes "0755") mode at.now (codes "mode") (view value.now))) result }
{
    match text_field(alloc, value, at, "mode") {
        Ok(Some(digits)) => {
            if is_mode(digits) {
                Ok(Text::of(alloc, digits)?)
            } else {
                Err(fault_at(alloc, at, FaultKind::BadVolume))
            }
        }
        Ok(None) => Ok(Text::of(alloc, "0755")?),
        Err(ReadError::Bad(_)) => Err(fault_at(alloc, at, FaultKind::BadVolume)),
        Err(ReadError::NoMemory) => Err(ReadError::NoMemory),
    }
}

/// Whether a text is one to four octal digits.
fn is_mode(text: &str) -> bool
    ensures { result ≡ is_mode text.now }
{
    let digits = text.as_bytes();
    1 <= digits.len() && digits.len() <= 4 && are_octal(digits)
}

fn are_octal(digits: &[u8]) -> bool
    ensures { result ≡ list_all is_octal digits.now }
{
    digits.iter().all(|digit| is_octal(*digit))
}

fn is_octal(digit: u8) -> bool
    ensures { result ≡ is_octal digit }
{
    matches!(digit, b'0'..=b'7')
}

/// The ID of a user or a group in a field of the object at a path: 0 where it is absent.
fn id_or_zero(alloc: Global, value: &Value, at: &str, name: &str) -> Result<u32, ReadError>
    ensures { Gives (default 0 (whole 4294967295) at.now name.now (view value.now)) result }
{
    match whole_field(alloc, value, at, name, 4_294_967_295) {
        Ok(Some(number)) => Ok(number as u32),
        Ok(None) => Ok(0),
        Err(error) => Err(error),
    }
}
