// The moment at which an image was imported.
ghost use Rattle.std.specs.Prelude.{◌≡◌, [], true, Ok, None, IfOk, IfErr, IsErrOf, IfSome, MatchOption, MatchBool};
ghost use Rattle.dir_model.specs.Causes.{Rose};
ghost use Rattle.dir_model.specs.Local.{IsActive};
ghost use Rattle.dir_trait.specs.DirCalls.{HeldBetween};
ghost use Rattle.dir_files.specs.Listed.{ShowsDirectoryBetween};
ghost use Rattle.image_reading.specs.Places.{image_inner, stored_path, mark_name, IsPresent, IsImageAbsent};
ghost use Rattle.image_reading.specs.Looks.{OnlyReadsImage};
ghost use Rattle.image_reading.specs.Trees.{ReadsNoTrees};
ghost use Rattle.image_reading.specs.Refusals.{IsStoreFailure, IsReadRefusal, IsDamaged};
ghost use Rattle.image_reading.specs.Files.{ReadsMoment, LacksMoment};

use crate::error::{StoreError, fault_error};
use crate::mark::greatest_moment;
use crate::place::{damaged, spot_of};
use ac_types::StoreKey;
use dir_files::items_of;
use dir_trait::{Dir, DirError, Items};
use std::alloc::Global;

/// What stands in the folder of an image; none where no folder stands there.
pub(crate) fn read_items<D: Dir>(
    alloc: Global,
    dir: &mut D,
    key: StoreKey,
) -> Result<Option<Items>, StoreError>
    requires active { IsActive (D.shown dir.old).local }
    ensures cause { IsErrOf result StoreError.DirFault → Rose (D.shown dir.old).faults (D.shown dir.new).faults }
    ensures only { OnlyReadsImage D.observed key (D.shown dir.old) (D.shown dir.new) }
    ensures trees { ReadsNoTrees D.observed (D.shown dir.old) (D.shown dir.new) }
    ensures refusals { IfErr result IsStoreFailure }
    ensures there { IfOk result (λ found. D.observed ≡ true
        → MatchOption found (HeldBetween (D.shown dir.old) (D.shown dir.new) (IsImageAbsent key)) (λ items. HeldBetween (D.shown dir.old) (D.shown dir.new) (IsPresent key))) }
    ensures shows { IfOk result (λ found. D.observed ≡ true
        → IfSome found (ShowsDirectoryBetween (D.shown dir.old) (D.shown dir.new) (image_inner key []))) }
{
    let spot = spot_of(alloc, key)?;
    match items_of(alloc, dir, spot, "") {
        Ok(items) => Ok(Some(items)),
        Err(DirError::Missing) => Ok(None),
        Err(error) => Err(fault_error(error)),
    }
}

/// Whether a folder of an image stands there.
pub(crate) fn is_there<D: Dir>(
    alloc: Global,
    dir: &mut D,
    key: StoreKey,
) -> Result<bool, StoreError>
    requires active { IsActive (D.shown dir.old).local }
    ensures cause { IsErrOf result StoreError.DirFault → Rose (D.shown dir.old).faults (D.shown dir.new).faults }
    ensures only { OnlyReadsImage D.observed key (D.shown dir.old) (D.shown dir.new) }
    ensures refusals { IfErr result IsStoreFailure }
    ensures there { IfOk result (λ there. D.observed ≡ true
        → MatchBool there (HeldBetween (D.shown dir.old) (D.shown dir.new) (IsPresent key)) (HeldBetween (D.shown dir.old) (D.shown dir.new) (IsImageAbsent key))) }
{
    match read_items(alloc, dir, key) {
        Ok(Some(_)) => Ok(true),
        Ok(None) => Ok(false),
        Err(error) => Err(error),
    }
}

/// The moment at which an image was imported: the greatest of its marks. `Damaged` where no folder stands
/// there or there is no mark in it; `DirFault` and `NoMemory` as for the manifest.
pub fn read_moment<D: Dir>(alloc: Global, dir: &mut D, key: StoreKey) -> Result<u64, StoreError>
    requires active { IsActive (D.shown dir.old).local }
    ensures cause { IsErrOf result StoreError.DirFault → Rose (D.shown dir.old).faults (D.shown dir.new).faults }
    ensures only { OnlyReadsImage D.observed key (D.shown dir.old) (D.shown dir.new) }
    ensures trees { ReadsNoTrees D.observed (D.shown dir.old) (D.shown dir.new) }
    ensures refusals { IfErr result (IsReadRefusal (λ path. path ≡ stored_path key mark_name)) }
    ensures read { IfOk result (λ moment. D.observed ≡ true → ReadsMoment key moment (D.shown dir.old) (D.shown dir.new)) }
    ensures damaged { IfErr result (λ e. IsDamaged e → D.observed ≡ true → LacksMoment key (D.shown dir.old) (D.shown dir.new)) }
{
    match read_items(alloc, dir, key) {
        Ok(Some(items)) => match greatest_moment(items.as_slice()) {
            Some(moment) => Ok(moment),
            None => Err(damaged(alloc, key, "imported-")),
        },
        Ok(None) => Err(damaged(alloc, key, "imported-")),
        Err(error) => Err(error),
    }
}
