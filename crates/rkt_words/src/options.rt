// Options of a command line, with what stands for those that aren't given.
ghost use Rattle.std.specs.Prelude.{◌≡◌};
ghost use Rattle.rkt_words.specs.Lines.{address_or_default, asked_of, duration_or, list_of_one};
ghost use Rattle.rkt_words.specs.Readings.{ReadsValue};
ghost use Rattle.rkt_words.specs.Volumes.{mount_of, volume_of};

use crate::duration::duration;
use crate::error::WordsError;
use crate::line::Asked;
use crate::plain::{address, images};
use crate::volume::{mount, volume};
use ac_types::{Sequence, Text};
use manifests::{Mounts, Volumes};
use std::alloc::Global;

/// The address of the metadata service where none is given.
const ADDRESS: &str = "127.0.0.1:18112";

/// The duration that a text is, or this one where there is no text.
pub(crate) fn duration_or(default: u64, text: &Option<Text>) -> Result<u64, WordsError>
    ensures { ReadsValue (duration_or default text.now) result }
{
    match text {
        None => Ok(default),
        Some(text) => match duration(text.as_str()) {
            Some(seconds) => Ok(seconds),
            None => Err(WordsError::Usage(2)),
        },
    }
}

/// The address that a text is, or the one of every host where there is no text.
pub(crate) fn address_or_default(alloc: Global, text: &Option<Text>) -> Result<Text, WordsError>
    ensures { ReadsValue (address_or_default text.now) result }
{
    match text {
        Some(text) => address(alloc, text.as_str()),
        None => match Text::of(alloc, ADDRESS) {
            Ok(address) => Ok(address),
            Err(_) => Err(WordsError::NoMemory),
        },
    }
}

fn volumes(alloc: Global, text: &Option<Text>) -> Result<Volumes, WordsError>
    ensures { ReadsValue (list_of_one volume_of text.now) result }
{
    match text {
        None => Ok(Sequence::new(alloc)),
        Some(text) => match volume(alloc, text.as_str()) {
            Ok(volume) => match Sequence::new(alloc).push(volume) {
                Ok(volumes) => Ok(volumes),
                Err(_) => Err(WordsError::NoMemory),
            },
            Err(error) => Err(error),
        },
    }
}

fn mounts(alloc: Global, text: &Option<Text>) -> Result<Mounts, WordsError>
    ensures { ReadsValue (list_of_one mount_of text.now) result }
{
    match text {
        None => Ok(Sequence::new(alloc)),
        Some(text) => match mount(alloc, text.as_str()) {
            Ok(mount) => match Sequence::new(alloc).push(mount) {
                Ok(mounts) => Ok(mounts),
                Err(_) => Err(WordsError::NoMemory),
            },
            Err(error) => Err(error),
        },
    }
}

/// What a pod is to be made of, by the options and the plain words.
pub(crate) fn asked(
    alloc: Global,
    volume: &Option<Text>,
    mount: &Option<Text>,
    words: &[Text],
) -> Result<Asked, WordsError>
    ensures { ReadsValue (asked_of volume.now mount.now words.now) result }
{
    let volumes = volumes(alloc, volume)?;
    let mounts = mounts(alloc, mount)?;
    let images = images(alloc, words)?;
    Ok(Asked {
        volumes,
        mounts,
        images,
    })
}
