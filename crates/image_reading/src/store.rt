// All images of the store.
ghost use Rattle.std.specs.Prelude.{◌≡◌, ℕ, true, IfOk, IfErr, IsErrOf};
ghost use Rattle.ac_types.specs.declared.store_key.StoreKey.{StoreKey};
ghost use Rattle.dir_model.specs.Causes.{Rose};
ghost use Rattle.dir_model.specs.Local.{IsActive};
ghost use Rattle.dir_trait.specs.DirCalls.{HeldBetween};
ghost use Rattle.image_reading.specs.Places.{IsImageAbsent, key_of_name};
ghost use Rattle.image_reading.specs.Looks.{OnlyReadsImage, OnlyReadsImages, HoldsImages, KnowsStill, KnowsStillNamed};
ghost use Rattle.image_reading.specs.Trees.{ReadsNoTrees};
ghost use Rattle.image_reading.specs.Refusals.{IsReadRefusal, IsTreeRefusal, IsDamaged};
ghost use Rattle.image_reading.specs.Files.{ReadsTree, LacksStoredTree};
ghost use Rattle.image_reading.specs.Store.{AddsImage, AreRead, ReadsStore, IsStorePath, LacksNamed, LacksFirst, LacksStore};

use crate::error::{StoreError, fault_error, short_of_memory};
use crate::file::read_listing;
use crate::image::read_image;
use crate::moment::is_there;
use crate::place::key_of;
use ac_types::StoreKey;
use dep_match::Stored;
use dir_files::names_of;
use dir_trait::{Area, Dir, Handle, Name};
use std::alloc::Global;
use tree_digest::Listing;

/// Reads the image of a name, where the name is a key's text.
fn read_next<D: Dir>(
    alloc: Global,
    dir: &mut D,
    name: &Name,
    images: &mut Vec<Stored>,
) -> Result<(), StoreError>
    requires active { IsActive (D.shown dir.old).local }
    ensures cause { IsErrOf result StoreError.DirFault → Rose (D.shown dir.old).faults (D.shown dir.new).faults }
    ensures only { OnlyReadsImages D.observed (D.shown dir.old) (D.shown dir.new) }
    ensures trees { ReadsNoTrees D.observed (D.shown dir.old) (D.shown dir.new) }
    ensures refusals { IfErr result (IsReadRefusal IsStorePath) }
    ensures read { IfOk result (λ done. D.observed ≡ true → AddsImage (key_of_name name.now) images.old.items images.new.items (D.shown dir.old) (D.shown dir.new)) }
    ensures damaged { IfErr result (λ e. IsDamaged e → D.observed ≡ true → LacksNamed (key_of_name name.now) e (D.shown dir.old) (D.shown dir.new)) }
{
    let Some(key) = key_of(name) else {
        return Ok(());
    };
    match read_image(alloc, dir, key) {
        Ok(image) => images.push(image).map_err(short_of_memory),
        Err(error) => Err(error),
    }
}

/// Reads each image of which a name is the key's text.
fn read_each<D: Dir>(alloc: Global, dir: &mut D, names: &[Name]) -> Result<Vec<Stored>, StoreError>
    requires active { IsActive (D.shown dir.old).local }
    ensures cause { IsErrOf result StoreError.DirFault → Rose (D.shown dir.old).faults (D.shown dir.new).faults }
    ensures only { OnlyReadsImages D.observed (D.shown dir.old) (D.shown dir.new) }
    ensures trees { ReadsNoTrees D.observed (D.shown dir.old) (D.shown dir.new) }
    ensures refusals { IfErr result (IsReadRefusal IsStorePath) }
    ensures read { IfOk result (λ images. D.observed ≡ true → AreRead names.now images.items (D.shown dir.old) (D.shown dir.new)) }
    ensures damaged { IfErr result (λ e. IsDamaged e → D.observed ≡ true → LacksFirst names.now e (D.shown dir.old) (D.shown dir.new)) }
{
    let mut images = Vec::new(alloc);
    'names: for name in names {
        read_next(alloc, dir, name, &mut images)?;
    }
    Ok(images)
}

/// The images of the store, in the byte order of their keys: each of which a name in the area is the key's
/// text. The handle holds the lock of the area. `Damaged` at the first image of those that the area's
/// listing showed of which a part is missing or has no reading; `DirFault` where the directory failed, `NoMemory` where memory ran out.
pub fn stored<D: Dir>(alloc: Global, dir: &mut D, gate: Handle) -> Result<Vec<Stored>, StoreError>
    requires active { IsActive (D.shown dir.old).local }
    requires held { HoldsImages (D.shown dir.old).local gate }
    ensures cause { IsErrOf result StoreError.DirFault → Rose (D.shown dir.old).faults (D.shown dir.new).faults }
    ensures only { OnlyReadsImages D.observed (D.shown dir.old) (D.shown dir.new) }
    ensures trees { ReadsNoTrees D.observed (D.shown dir.old) (D.shown dir.new) }
    ensures known { D.observed ≡ true → KnowsStillNamed (D.shown dir.old) (D.shown dir.new) }
    ensures refusals { IfErr result (IsReadRefusal IsStorePath) }
    ensures listed { IfOk result (λ images. D.observed ≡ true → ReadsStore images.items (D.shown dir.old) (D.shown dir.new)) }
    ensures damaged { IfErr result (λ e. D.observed ≡ true → LacksStore e (D.shown dir.old) (D.shown dir.new)) }
{
    let _gate = gate;
    match names_of(alloc, dir, Area::Images) {
        Ok(names) => read_each(alloc, dir, names.as_slice()),
        Err(error) => Err(fault_error(error)),
    }
}

/// The listing of an image of the store. The handle holds the lock of the area. `NoImage` where no folder
/// of that image stands there; `Damaged` where one does, and its file `tree` is missing or is no listing;
/// `DirFault` where the directory failed, `NoMemory` where memory ran out.
pub fn read_tree<D: Dir>(
    alloc: Global,
    dir: &mut D,
    gate: Handle,
    key: StoreKey,
) -> Result<Listing, StoreError>
    requires active { IsActive (D.shown dir.old).local }
    requires held { HoldsImages (D.shown dir.old).local gate }
    ensures cause { IsErrOf result StoreError.DirFault → Rose (D.shown dir.old).faults (D.shown dir.new).faults }
    ensures only { OnlyReadsImage D.observed key (D.shown dir.old) (D.shown dir.new) }
    ensures known { D.observed ≡ true → KnowsStill (D.shown dir.old) (D.shown dir.new) }
    ensures refusals { IfErr result (IsTreeRefusal key) }
    ensures read { IfOk result (λ lines. D.observed ≡ true → ReadsTree key lines (D.shown dir.old) (D.shown dir.new)) }
    ensures damaged { IfErr result (λ e. IsDamaged e → D.observed ≡ true → LacksStoredTree key (D.shown dir.old) (D.shown dir.new)) }
    ensures absent { (other : StoreKey) → IsErrOf result (StoreError.NoImage other) → D.observed ≡ true → HeldBetween (D.shown dir.old) (D.shown dir.new) (IsImageAbsent key) }
{
    let _gate = gate;
    match is_there(alloc, dir, key) {
        Ok(true) => read_listing(alloc, dir, key),
        Ok(false) => Err(StoreError::NoImage(key)),
        Err(error) => Err(error),
    }
}
