// The deletion of a folder in removed, under that area's lock.
ghost use Rattle.std.specs.Prelude.{◌≡◌, ◌⊎◌, true, IfOk, IfErr, IsErrOf};
ghost use Rattle.dir_model.specs.declared.request.Request.TheVariants.{RemoveFolder};
ghost use Rattle.dir_model.specs.declared.request.Reply.TheVariants.{Done};
ghost use Rattle.dir_trait.specs.Local.{IsActive};
ghost use Rattle.folder_building.specs.Work.{either};
ghost use Rattle.dir_rules.specs.declared.seen.Seen.{Seen};
ghost use Rattle.dir_trait.specs.Knowledge.{Knows};
ghost use Rattle.dir_trait.specs.Effects.{OnlyAsks};
ghost use Rattle.folder_removal.specs.Known.{StrayKnowing};
ghost use Rattle.folder_removal.specs.Removal.{asks_deletion_at, KeepsFolders, EndsWithStrayDeletion};
ghost use Rattle.lifecycle.specs.Executions.{IsConforming};
ghost use Rattle.image_removal.specs.Requests.{removed_spot, looks_at_folder};
ghost use Rattle.image_removal.specs.Calls.{WasCalled};
ghost use Rattle.image_removal.specs.Causes.{RemovalWorkCause};
ghost use Rattle.image_removal.specs.Removals.{IsGone};
ghost use Rattle.image_removal.specs.Work.{HoldsArea, KeepsStandingAndRules, StaysBare, Stays};

use crate::error::delete_refusal;
use crate::look::is_there;
use crate::place::removed_spot;
use dir_trait::{Area, Dir, Name};
use folder_removal::delete_folder;
use image_reading::StoreError;
use std::alloc::Global;

/// Deletes the folder of this name in removed. The process holds the area's lock, and the folder stands
/// there. `Stray` where the directory's answers contradict that, `DirFault` where it failed, `NoMemory`
/// where memory ran out.
pub(crate) fn delete<D: Dir>(alloc: Global, dir: &mut D, name: Name) -> Result<(), StoreError>
    requires active { IsActive (D.shown dir.old).local }
    ensures worked { OnlyAsks D.observed (asks_deletion_at (removed_spot name)) (D.shown dir.old) (D.shown dir.new) }
    ensures cause { IfErr result (λ e. RemovalWorkCause D.observed e (D.shown dir.old) (D.shown dir.new)) }
    ensures kept { IfErr result (λ e. D.observed ≡ true → KeepsFolders (D.shown dir.old) (D.shown dir.new)) }
    ensures deleted { IfOk result (λ done. D.observed ≡ true
        → WasCalled (RemoveFolder (removed_spot name)) Done (D.shown dir.old).process (D.shown dir.old).trace (D.shown dir.new).trace) }
    ensures stays { IfOk result (λ done. D.observed ≡ true → Stays (HoldsArea Area.Removed) StaysBare (D.shown dir.old) (D.shown dir.new)) }
    ensures left { IfErr result (λ e. D.observed ≡ true → Stays (HoldsArea Area.Removed) KeepsStandingAndRules (D.shown dir.old) (D.shown dir.new)) }
    ensures stray { IsErrOf result StoreError.Stray → D.observed ≡ true → EndsWithStrayDeletion (removed_spot name) (D.shown dir.old) (D.shown dir.new) }
    ensures knew { IsErrOf result StoreError.Stray → D.observed ≡ true → (s : Seen) → Knows (D.shown dir.old) s → HoldsArea Area.Removed s
        → StrayKnowing (removed_spot name) (D.shown dir.old).process (D.shown dir.new).trace }
{
    match delete_folder(alloc, dir, removed_spot(name)) {
        Ok(()) => Ok(()),
        Err(error) => Err(delete_refusal(error)),
    }
}

/// The same where another process may have deleted it before this one had the lock.
pub(crate) fn delete_if_there<D: Dir>(
    alloc: Global,
    dir: &mut D,
    name: Name,
) -> Result<(), StoreError>
    requires active { IsActive (D.shown dir.old).local }
    ensures worked { OnlyAsks D.observed (either (looks_at_folder (removed_spot name)) (asks_deletion_at (removed_spot name))) (D.shown dir.old) (D.shown dir.new) }
    ensures cause { IfErr result (λ e. RemovalWorkCause D.observed e (D.shown dir.old) (D.shown dir.new)) }
    ensures kept { IfErr result (λ e. D.observed ≡ true → KeepsFolders (D.shown dir.old) (D.shown dir.new)) }
    ensures gone { IfOk result (λ done. D.observed ≡ true
        → IsGone (removed_spot name) (D.shown dir.old).process (D.shown dir.old).trace (D.shown dir.new).trace) }
    ensures stays { D.observed ≡ true → Stays (HoldsArea Area.Removed) KeepsStandingAndRules (D.shown dir.old) (D.shown dir.new) }
    ensures lawful { IsErrOf result StoreError.Stray → D.observed ≡ true → (s : Seen) → Knows (D.shown dir.old) s → HoldsArea Area.Removed s
        → IsConforming (D.shown dir.new).trace → ⊥ }
{
    if is_there(alloc, dir, removed_spot(name))? {
        delete(alloc, dir, name)
    } else {
        Ok(())
    }
}
