// An image of the store.
ghost use Rattle.std.specs.Prelude.{◌≡◌, true, IfOk, IfErr, IsErrOf};
ghost use Rattle.dir_model.specs.Causes.{Rose};
ghost use Rattle.dir_model.specs.Local.{IsActive};
ghost use Rattle.image_reading.specs.Looks.{OnlyReadsImage};
ghost use Rattle.image_reading.specs.Trees.{ReadsNoTrees};
ghost use Rattle.image_reading.specs.Refusals.{IsReadRefusal, IsImagePath};
ghost use Rattle.image_reading.specs.Images.{ReadsImage, LacksImage};

use crate::error::StoreError;
use crate::file::{read_id, read_manifest};
use crate::moment::read_moment;
use ac_types::StoreKey;
use dep_match::Stored;
use dir_trait::Dir;
use std::alloc::Global;

/// An image of the store. `Damaged` where a part of it is missing or has no reading, in this order: its
/// manifest, its ID, its moment; `DirFault` where the directory failed, `NoMemory` where memory ran out.
pub fn read_image<D: Dir>(alloc: Global, dir: &mut D, key: StoreKey) -> Result<Stored, StoreError>
    requires active { IsActive (D.shown dir.old).local }
    ensures cause { IsErrOf result StoreError.DirFault → Rose (D.shown dir.old).faults (D.shown dir.new).faults }
    ensures only { OnlyReadsImage D.observed key (D.shown dir.old) (D.shown dir.new) }
    ensures trees { ReadsNoTrees D.observed (D.shown dir.old) (D.shown dir.new) }
    ensures refusals { IfErr result (IsReadRefusal (IsImagePath key)) }
    ensures key { IfOk result (λ image. image.key ≡ key) }
    ensures read { IfOk result (λ image. D.observed ≡ true → ReadsImage image (D.shown dir.old) (D.shown dir.new)) }
    ensures damaged { IfErr result (λ e. D.observed ≡ true → LacksImage key e (D.shown dir.old) (D.shown dir.new)) }
{
    let kept = read_manifest(alloc, dir, key)?;
    let id = read_id(alloc, dir, key)?;
    let moment = read_moment(alloc, dir, key)?;
    Ok(Stored {
        key,
        id,
        manifest: kept.manifest,
        moment,
    })
}
