// What the bytes of an image's files are.
ghost use Rattle.std.specs.Prelude.{◌≡◌, ◌++◌, ◌∷◌, [], ℕ, List, take, IfOk, IfErr, MatchOption};
ghost use Rattle.ac_types.specs.Ids.{AreBytes, id_text};
ghost use Rattle.image_reading.specs.Places.{stored_path, manifest_name, id_name, tree_name};
ghost use Rattle.image_reading.specs.Refusals.{IsDamage};
ghost use Rattle.image_reading.specs.Files.{IsKeptOf, IsNoImageManifest, IsIdOf, IsNoId, IsListingOf, IsNoListing};

use crate::error::StoreError;
use crate::file::KeptManifest;
use crate::place::damaged;
use ac_types::{ImageId, ReadError, StoreKey};
use manifests::read_image;
use std::alloc::Global;
use std::str;
use tree_digest::{Listing, ListingError};

/// The manifest that the bytes are.
pub(crate) fn manifest_of(
    alloc: Global,
    key: StoreKey,
    bytes: Vec<u8>,
) -> Result<KeptManifest, StoreError>
    ensures ok { IfOk result (λ kept. IsKeptOf kept bytes.items) }
    ensures fault { IfErr result (IsDamage (stored_path key manifest_name) (IsNoImageManifest bytes.items)) }
{
    match read_image(alloc, &bytes) {
        Ok(manifest) => Ok(KeptManifest { manifest, bytes }),
        Err(ReadError::Bad(_)) => Err(damaged(alloc, key, "manifest")),
        Err(ReadError::NoMemory) => Err(StoreError::NoMemory),
    }
}

/// What stands before the line end with which the bytes end.
fn line_of(bytes: &[u8]) -> Option<&[u8]>
    ensures { MatchOption result ((text : List ℕ) → bytes.now ≡ text ++ 10 ∷ [] → ⊥) (λ text. bytes.now ≡ text.now ++ 10 ∷ []) }
{
    match bytes.split_last() {
        Some((last, text)) if *last == b'\n' => Some(text),
        _ => None,
    }
}

/// The ID whose text it is.
fn id_text_of(line: &[u8]) -> Option<ImageId>
    ensures { MatchOption result ((other : List ℕ) → AreBytes 64 other → line.now ≡ id_text other → ⊥) (λ id. AreBytes 64 id.bytes × (line.now ≡ id_text id.bytes)) }
{
    let Ok(text) = str::from_utf8(line) else {
        return None;
    };
    match ImageId::parse(text) {
        Ok(id) => Some(id),
        Err(_) => None,
    }
}

/// The ID, where it is that of an image with this key.
fn with_key(key: StoreKey, id: ImageId) -> Option<ImageId>
    ensures { MatchOption result (take 32 id.bytes ≡ key.bytes → ⊥) (λ same. (same ≡ id) × (take 32 id.bytes ≡ key.bytes)) }
{
    if StoreKey::of(id) == key {
        Some(id)
    } else {
        None
    }
}

/// The ID whose text and line end the bytes are, where it is that of an image with this key.
fn id_in(key: StoreKey, bytes: &[u8]) -> Option<ImageId>
    ensures { MatchOption result (IsNoId key bytes.now) (λ id. IsIdOf key id bytes.now) }
{
    let line = line_of(bytes)?;
    match id_text_of(line) {
        Some(id) => with_key(key, id),
        None => None,
    }
}

/// The ID that the bytes are.
pub(crate) fn id_of(alloc: Global, key: StoreKey, bytes: &[u8]) -> Result<ImageId, StoreError>
    ensures ok { IfOk result (λ id. IsIdOf key id bytes.now) }
    ensures fault { IfErr result (IsDamage (stored_path key id_name) (IsNoId key bytes.now)) }
{
    match id_in(key, bytes) {
        Some(id) => Ok(id),
        None => Err(damaged(alloc, key, "id")),
    }
}

/// The listing that the bytes are.
pub(crate) fn listing_of(alloc: Global, key: StoreKey, bytes: &[u8]) -> Result<Listing, StoreError>
    ensures ok { IfOk result (λ lines. IsListingOf lines bytes.now) }
    ensures fault { IfErr result (IsDamage (stored_path key tree_name) (IsNoListing bytes.now)) }
{
    match Listing::read(alloc, bytes) {
        Ok(listing) => Ok(listing),
        Err(ListingError::NoMemory) => Err(StoreError::NoMemory),
        Err(_) => Err(damaged(alloc, key, "tree")),
    }
}
