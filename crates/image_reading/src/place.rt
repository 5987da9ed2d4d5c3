// The folder of an image, and the paths of its files.
ghost use Rattle.std.specs.Prelude.{◌≡◌, ◌++◌, ◌∷◌, IfOk, IfErr};
ghost use Rattle.image_reading.specs.Places.{image_spot, stored_path, key_of_name};
ghost use Rattle.image_reading.specs.Refusals.{IsDamage};

use crate::error::{StoreError, out_of_memory};
use ac_types::{NoMemory, StoreKey, Text};
use dir_trait::{Area, Name, Spot};
use std::alloc::Global;

/// The folder of an image.
pub fn spot_of(alloc: Global, key: StoreKey) -> Result<Spot, StoreError>
    ensures spot { IfOk result (λ spot. spot ≡ image_spot key) }
    ensures memory { IfErr result (λ e. e ≡ StoreError.NoMemory) }
{
    let text = key.text(alloc).map_err(out_of_memory)?;
    match Name::of(text.as_str()) {
        Some(name) => Ok(Spot {
            area: Area::Images,
            name,
        }),
        None => unreachable!(),
    }
}

/// A text, a slash and what follows it.
fn joined(alloc: Global, front: &str, rest: &str) -> Result<Text, NoMemory>
    ensures { IfOk result (λ text. text ≡ front.now ++ 47 ∷ rest.now) }
{
    let mut text = String::from_str(alloc, front)?;
    text.push_str("/")?;
    text.push_str(rest)?;
    Ok(Text::from_string(text))
}

/// The path of a file of an image.
fn path_of(alloc: Global, key: StoreKey, name: &str) -> Result<Text, NoMemory>
    ensures { IfOk result (λ path. path ≡ stored_path key name.now) }
{
    let front = key.text(alloc)?;
    joined(alloc, front.as_str(), name)
}

/// The refusal where a file of an image is damaged.
pub(crate) fn damaged(alloc: Global, key: StoreKey, name: &str) -> StoreError
    ensures { IsDamage (stored_path key name.now) (Unit {0}) result }
{
    match path_of(alloc, key, name) {
        Ok(path) => StoreError::Damaged(path),
        Err(error) => out_of_memory(error),
    }
}

/// The key of which a name of the area is the text.
pub(crate) fn key_of(name: &Name) -> Option<StoreKey>
    ensures { result ≡ key_of_name name.now }
{
    match StoreKey::parse(name.as_str()) {
        Ok(key) => Some(key),
        Err(_) => None,
    }
}
