// Volumes and mounts of a command line.
ghost use Rattle.std.specs.Prelude.{◌≡◌, ◌==◌, IfOk, map, option_and_then};
ghost use Rattle.std.specs.List.{slice_split};
ghost use Rattle.rkt_words.specs.Readings.{ReadsValue};
ghost use Rattle.rkt_words.specs.Values.{ac_name_of};
ghost use Rattle.rkt_words.specs.Volumes.{empty_kind, empty_parts, read_empty_volume, flagged_parts, host_parts, host_volume, keyed, mount_of_words, mount_of, mount_parts, place_at, volume_of, volume_parts};

use crate::error::WordsError;
use crate::name::{keyed, name};
use ac_types::{AcName, NoMemory, Text};
use app_section::place_text;
use manifests::{Mount, Volume, VolumeKind};
use std::alloc::{AllocError, Global};

/// The parts of a text between its commas.
fn parts_of(alloc: Global, text: &str) -> Result<Vec<&str>, AllocError>
    ensures { IfOk result (λ v. map (λ x. x.now) v.items ≡ slice_split (λ b. b == 44) text.now) }
{
    text.split(',').collect(alloc)
}

fn place_at(alloc: Global, key: &str, part: &str) -> Result<Text, WordsError>
    ensures { ReadsValue (place_at key.now part.now) result }
{
    match keyed(key, part) {
        None => Err(WordsError::Usage(2)),
        Some(text) => match place_text(alloc, text) {
            Ok(Some(place)) => Ok(place),
            Ok(None) => Err(WordsError::Usage(2)),
            Err(_) => Err(WordsError::NoMemory),
        },
    }
}

fn name_at(alloc: Global, key: &str, part: &str) -> Result<AcName, WordsError>
    ensures { ReadsValue (option_and_then ac_name_of (keyed key.now part.now)) result }
{
    match keyed(key, part) {
        None => Err(WordsError::Usage(2)),
        Some(text) => name(alloc, text),
    }
}

fn host_volume(
    alloc: Global,
    read_only: bool,
    text: &str,
    source: &str,
) -> Result<Volume, WordsError>
    ensures { ReadsValue (host_volume read_only text.now source.now) result }
{
    match name(alloc, text) {
        Ok(name) => match place_at(alloc, "source", source) {
            Ok(source) => Ok(Volume {
                name,
                kind: VolumeKind::Host { source, read_only },
            }),
            Err(error) => Err(error),
        },
        Err(error) => Err(error),
    }
}

fn empty_kind(alloc: Global) -> Result<VolumeKind, NoMemory>
    ensures { IfOk result (λ kind. kind ≡ empty_kind) }
{
    Ok(VolumeKind::Empty {
        mode: Text::of(alloc, "0755")?,
        uid: 0,
        gid: 0,
    })
}

fn empty_volume(alloc: Global, text: &str) -> Result<Volume, WordsError>
    ensures { ReadsValue (read_empty_volume text.now) result }
{
    match name(alloc, text) {
        Ok(name) => match empty_kind(alloc) {
            Ok(kind) => Ok(Volume { name, kind }),
            Err(_) => Err(WordsError::NoMemory),
        },
        Err(error) => Err(error),
    }
}

fn empty_parts(alloc: Global, name: &str, kind: &str) -> Result<Volume, WordsError>
    ensures { ReadsValue (empty_parts name.now kind.now) result }
{
    if kind == "kind=empty" {
        return empty_volume(alloc, name);
    }
    Err(WordsError::Usage(2))
}

fn host_parts(alloc: Global, name: &str, kind: &str, source: &str) -> Result<Volume, WordsError>
    ensures { ReadsValue (host_parts name.now kind.now source.now) result }
{
    if kind == "kind=host" {
        return host_volume(alloc, false, name, source);
    }
    Err(WordsError::Usage(2))
}

fn flagged_parts(
    alloc: Global,
    name: &str,
    kind: &str,
    source: &str,
    flag: &str,
) -> Result<Volume, WordsError>
    ensures { ReadsValue (flagged_parts name.now kind.now source.now flag.now) result }
{
    if kind == "kind=host" && flag == "readOnly=true" {
        return host_volume(alloc, true, name, source);
    }
    Err(WordsError::Usage(2))
}

fn volume_parts(alloc: Global, parts: &[&str]) -> Result<Volume, WordsError>
    ensures { ReadsValue (volume_parts (map (λ x. x.now) parts.now)) result }
{
    match parts {
        [name, kind] => empty_parts(alloc, *name, *kind),
        [name, kind, source] => host_parts(alloc, *name, *kind, *source),
        [name, kind, source, flag] => flagged_parts(alloc, *name, *kind, *source, *flag),
        _ => Err(WordsError::Usage(2)),
    }
}

/// The volume that a text is: `NAME,kind=host,source=PLACE`, the same with `,readOnly=true`, or `NAME,kind=empty`.
pub(crate) fn volume(alloc: Global, text: &str) -> Result<Volume, WordsError>
    ensures { ReadsValue (volume_of text.now) result }
{
    match parts_of(alloc, text) {
        Ok(parts) => volume_parts(alloc, parts.as_slice()),
        Err(_) => Err(WordsError::NoMemory),
    }
}

fn mount_at(alloc: Global, volume: &str, target: &str) -> Result<Mount, WordsError>
    ensures { ReadsValue (mount_of_words volume.now target.now) result }
{
    match name_at(alloc, "volume", volume) {
        Ok(volume) => match place_at(alloc, "target", target) {
            Ok(path) => Ok(Mount { volume, path }),
            Err(error) => Err(error),
        },
        Err(error) => Err(error),
    }
}

fn mount_parts(alloc: Global, parts: &[&str]) -> Result<Mount, WordsError>
    ensures { ReadsValue (mount_parts (map (λ x. x.now) parts.now)) result }
{
    match parts {
        [volume, target] => mount_at(alloc, *volume, *target),
        _ => Err(WordsError::Usage(2)),
    }
}

/// The mount that a text is: `volume=NAME,target=PLACE`.
pub(crate) fn mount(alloc: Global, text: &str) -> Result<Mount, WordsError>
    ensures { ReadsValue (mount_of text.now) result }
{
    match parts_of(alloc, text) {
        Ok(parts) => mount_parts(alloc, parts.as_slice()),
        Err(_) => Err(WordsError::NoMemory),
    }
}
