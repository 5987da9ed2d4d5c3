// The manifest, the ID and the listing of an image.
ghost use Rattle.std.specs.Prelude.{◌≡◌, ◌<◌, ◌≤◌, ℕ, List, true, false, bytes_eq, length, take, IfSome, IfOk, IfErr, IsErrOf, IsSomeAnd, MatchOption, MatchResult};
ghost use Rattle.dir_model.specs.Causes.{Rose};
ghost use Rattle.dir_model.specs.Paths.{is_path};
ghost use Rattle.dir_model.specs.Local.{IsActive};
ghost use Rattle.dir_files.specs.Reads.{ReadsUp, WasMissing, FileStaysBetween};
ghost use Rattle.image_reading.specs.Places.{image_inner, stored_path, manifest_name, id_name, tree_name};
ghost use Rattle.image_reading.specs.Looks.{OnlyReadsImage};
ghost use Rattle.image_reading.specs.Trees.{ReadsNoTrees};
ghost use Rattle.image_reading.specs.Refusals.{IsStoreFailure, IsReadRefusal, IsDamaged};
ghost use Rattle.image_reading.specs.Files.{IsKeptOf, IsNoImageManifest, IsIdOf, IsNoId, IsListingOf, IsNoListing, ReadsKept, ReadsNoImageManifest, ReadsId, LacksId, ReadsTree, LacksTree};

use crate::error::{StoreError, read_error};
use crate::place::{damaged, spot_of};
use crate::value::{id_of, listing_of, manifest_of};
use ac_types::{ImageId, MOST_OF_ID, StoreKey};
use dir_files::read_file;
use dir_trait::Dir;
use manifests::{ImageManifest, MOST_OF_MANIFEST};
use std::alloc::Global;
use tree_digest::Listing;
use tree_digest::refusals::MOST_OF_LISTING;

/// A manifest, and the bytes that it was read from.
#[derive(Drop)]
pub struct KeptManifest {
    pub manifest: ImageManifest,
    pub bytes: Vec<u8>,
}

/// The bytes of a file of an image, or its first `most`; none where no such file stands there.
pub(crate) fn read_part<D: Dir>(
    alloc: Global,
    dir: &mut D,
    key: StoreKey,
    name: &str,
    most: usize,
) -> Result<Option<Vec<u8>>, StoreError>
    requires active { IsActive (D.shown dir.old).local }
    requires path { is_path name.now ≡ true }
    requires most { 0 < most }
    ensures cause { IsErrOf result StoreError.DirFault → Rose (D.shown dir.old).faults (D.shown dir.new).faults }
    ensures only { OnlyReadsImage D.observed key (D.shown dir.old) (D.shown dir.new) }
    ensures trees { bytes_eq name.now tree_name ≡ false → ReadsNoTrees D.observed (D.shown dir.old) (D.shown dir.new) }
    ensures refusals { IfErr result IsStoreFailure }
    ensures most { IfOk result (λ found. IfSome found (λ bytes. length bytes.items ≤ most)) }
    ensures read { IfOk result (λ found. D.observed ≡ true → MatchOption found
        (WasMissing (image_inner key name.now) (D.shown dir.old) (D.shown dir.new))
        (λ bytes. ReadsUp (image_inner key name.now) most (D.shown dir.old) (D.shown dir.new) bytes.items)) }
    ensures whole { IfOk result (λ found. D.observed ≡ true → (file : List ℕ)
        → FileStaysBetween (image_inner key name.now) file (D.shown dir.old) (D.shown dir.new) → IsSomeAnd found (λ bytes. bytes.items ≡ take most file)) }
{
    let spot = spot_of(alloc, key)?;
    match read_file(alloc, dir, spot, name, most) {
        Ok(found) => Ok(found),
        Err(error) => Err(read_error(error)),
    }
}

/// The manifest of an image. `Damaged` where there is no file `manifest` in its folder, or it is no image
/// manifest; `DirFault` where the directory failed, `NoMemory` where memory ran out.
pub fn read_manifest<D: Dir>(
    alloc: Global,
    dir: &mut D,
    key: StoreKey,
) -> Result<KeptManifest, StoreError>
    requires active { IsActive (D.shown dir.old).local }
    ensures cause { IsErrOf result StoreError.DirFault → Rose (D.shown dir.old).faults (D.shown dir.new).faults }
    ensures only { OnlyReadsImage D.observed key (D.shown dir.old) (D.shown dir.new) }
    ensures trees { ReadsNoTrees D.observed (D.shown dir.old) (D.shown dir.new) }
    ensures refusals { IfErr result (IsReadRefusal (λ path. path ≡ stored_path key manifest_name)) }
    ensures read { IfOk result (λ kept. D.observed ≡ true → ReadsKept key kept (D.shown dir.old) (D.shown dir.new)) }
    ensures damaged { IfErr result (λ e. IsDamaged e → D.observed ≡ true → ReadsNoImageManifest key (D.shown dir.old) (D.shown dir.new)) }
    ensures whole { D.observed ≡ true → (file : List ℕ) → FileStaysBetween (image_inner key manifest_name) file (D.shown dir.old) (D.shown dir.new)
        → MatchResult result (λ kept. IsKeptOf kept file) (λ e. IsDamaged e → IsNoImageManifest file) }
{
    match read_part(alloc, dir, key, "manifest", MOST_OF_MANIFEST) {
        Ok(Some(bytes)) => manifest_of(alloc, key, bytes),
        Ok(None) => Err(damaged(alloc, key, "manifest")),
        Err(error) => Err(error),
    }
}

/// The ID of an image. `Damaged` where there is no file `id` in its folder, or it isn't the text of an ID
/// and a line end, or the ID is that of an image with another key; `DirFault` and `NoMemory` as for the
/// manifest.
pub fn read_id<D: Dir>(alloc: Global, dir: &mut D, key: StoreKey) -> Result<ImageId, StoreError>
    requires active { IsActive (D.shown dir.old).local }
    ensures cause { IsErrOf result StoreError.DirFault → Rose (D.shown dir.old).faults (D.shown dir.new).faults }
    ensures only { OnlyReadsImage D.observed key (D.shown dir.old) (D.shown dir.new) }
    ensures trees { ReadsNoTrees D.observed (D.shown dir.old) (D.shown dir.new) }
    ensures refusals { IfErr result (IsReadRefusal (λ path. path ≡ stored_path key id_name)) }
    ensures read { IfOk result (λ id. D.observed ≡ true → ReadsId key id (D.shown dir.old) (D.shown dir.new)) }
    ensures damaged { IfErr result (λ e. IsDamaged e → D.observed ≡ true → LacksId key (D.shown dir.old) (D.shown dir.new)) }
    ensures whole { D.observed ≡ true → (file : List ℕ) → FileStaysBetween (image_inner key id_name) file (D.shown dir.old) (D.shown dir.new)
        → MatchResult result (λ id. IsIdOf key id file) (λ e. IsDamaged e → IsNoId key file) }
{
    match read_part(alloc, dir, key, "id", MOST_OF_ID) {
        Ok(Some(bytes)) => id_of(alloc, key, &bytes),
        Ok(None) => Err(damaged(alloc, key, "id")),
        Err(error) => Err(error),
    }
}

/// The listing of an image's tree. `Damaged` where there is no file `tree` in its folder, or it is no
/// listing; `DirFault` and `NoMemory` as for the manifest.
pub fn read_listing<D: Dir>(
    alloc: Global,
    dir: &mut D,
    key: StoreKey,
) -> Result<Listing, StoreError>
    requires active { IsActive (D.shown dir.old).local }
    ensures cause { IsErrOf result StoreError.DirFault → Rose (D.shown dir.old).faults (D.shown dir.new).faults }
    ensures only { OnlyReadsImage D.observed key (D.shown dir.old) (D.shown dir.new) }
    ensures refusals { IfErr result (IsReadRefusal (λ path. path ≡ stored_path key tree_name)) }
    ensures read { IfOk result (λ lines. D.observed ≡ true → ReadsTree key lines (D.shown dir.old) (D.shown dir.new)) }
    ensures damaged { IfErr result (λ e. IsDamaged e → D.observed ≡ true → LacksTree key (D.shown dir.old) (D.shown dir.new)) }
    ensures whole { D.observed ≡ true → (file : List ℕ) → FileStaysBetween (image_inner key tree_name) file (D.shown dir.old) (D.shown dir.new)
        → MatchResult result (λ lines. IsListingOf lines file) (λ e. IsDamaged e → IsNoListing file) }
{
    match read_part(alloc, dir, key, "tree", MOST_OF_LISTING) {
        Ok(Some(bytes)) => listing_of(alloc, key, &bytes),
        Ok(None) => Err(damaged(alloc, key, "tree")),
        Err(error) => Err(error),
    }
}
