// The removal of an image.
ghost use Rattle.std.specs.Prelude.{◌≡◌, true, IfOk, IfErr, IsErrOf};
ghost use Rattle.dir_rules.specs.declared.seen.Seen.{Seen};
ghost use Rattle.dir_trait.specs.Local.{IsActive};
ghost use Rattle.dir_trait.specs.Knowledge.{Knows};
ghost use Rattle.dir_trait.specs.Effects.{OnlyAsks};
ghost use Rattle.dir_files.specs.AreaLocks.{is_free_of, IsBusy, IsBusyElsewhere};
ghost use Rattle.folder_removal.specs.Removal.{KeepsFolders};
ghost use Rattle.lifecycle.specs.Executions.{IsConforming};
ghost use Rattle.image_removal.specs.Requests.{away_spot, puts_away, deletes_away, removes_at};
ghost use Rattle.image_removal.specs.Calls.{WasCalled};
ghost use Rattle.image_removal.specs.Causes.{lock_free, RemovalWorkCause, ImageRemovalCause, RemovalBusyElsewhere};
ghost use Rattle.image_removal.specs.Removals.{IsGoneUnless, IsRemovedBetween};
ghost use Rattle.image_removal.specs.Work.{MayPassStore, MayRemoveImage, KeepsStandingAndRules, StaysBare, Stays};
ghost use Rattle.dir_model.specs.declared.request.Reply.TheVariants.{Done};

use crate::deletion::delete_if_there;
use crate::error::lock_refusal;
use crate::putting::put_image_away;
use ac_types::StoreKey;
use dir_files::{LockError, lock_area, unlock_area};
use dir_trait::{Area, Dir, Mode, PodId};
use image_reading::StoreError;
use std::alloc::Global;

// Moves the image to removed under the lock of images, and gives that lock up.
fn put_away_locked<D: Dir>(
    alloc: Global,
    dir: &mut D,
    key: StoreKey,
    draw: PodId,
) -> Result<(), StoreError>
    requires active { IsActive (D.shown dir.old).local }
    ensures worked { OnlyAsks D.observed (removes_at key draw) (D.shown dir.old) (D.shown dir.new) }
    ensures cause { IfErr result (λ e. ImageRemovalCause D.observed key draw e (D.shown dir.old) (D.shown dir.new)) }
    ensures kept { D.observed ≡ true → KeepsFolders (D.shown dir.old) (D.shown dir.new) }
    ensures by_other_process { IfErr result (λ e. D.observed ≡ true → (s : Seen) → Knows (D.shown dir.old) s → is_free_of Area.Images s ≡ true
        → RemovalBusyElsewhere e (D.shown dir.old) (D.shown dir.new)) }
    ensures moved { IfOk result (λ done. D.observed ≡ true
        → WasCalled (puts_away key draw) Done (D.shown dir.old).process (D.shown dir.old).trace (D.shown dir.new).trace) }
    ensures stays { D.observed ≡ true → Stays (MayRemoveImage draw) StaysBare (D.shown dir.old) (D.shown dir.new) }
    ensures lawful { IsErrOf result StoreError.Stray → D.observed ≡ true → IsConforming (D.shown dir.new).trace → ⊥ }
{
    match lock_area(alloc, dir, Area::Images, Mode::Exclusive) {
        Ok(gate) => {
            let result = put_image_away(alloc, dir, key, draw);
            unlock_area(dir, gate);
            result
        }
        Err(error) => Err(lock_refusal(Area::Images, error)),
    }
}

// Where the lock of removed is busy, the folder stays there for a later sweep.
fn lock_free(error: LockError) -> Result<(), StoreError>
    ensures { result ≡ lock_free error }
{
    match error {
        LockError::Busy => Ok(()),
        LockError::DirFault => Err(StoreError::DirFault),
        LockError::NoMemory => Err(StoreError::NoMemory),
    }
}

// Deletes what was put away, where the lock of removed is free.
fn delete_if_free<D: Dir>(alloc: Global, dir: &mut D, draw: PodId) -> Result<(), StoreError>
    requires active { IsActive (D.shown dir.old).local }
    ensures worked { OnlyAsks D.observed (deletes_away draw) (D.shown dir.old) (D.shown dir.new) }
    ensures cause { IfErr result (λ e. RemovalWorkCause D.observed e (D.shown dir.old) (D.shown dir.new)) }
    ensures kept { IfErr result (λ e. D.observed ≡ true → KeepsFolders (D.shown dir.old) (D.shown dir.new)) }
    ensures gone { IfOk result (λ done. D.observed ≡ true
        → IsGoneUnless (IsBusy Area.Removed Mode.Exclusive) (away_spot draw)
        (D.shown dir.old).process (D.shown dir.old).trace (D.shown dir.new).trace) }
    ensures by_other_process { IfOk result (λ done. D.observed ≡ true → (s : Seen) → Knows (D.shown dir.old) s → is_free_of Area.Removed s ≡ true
        → IsGoneUnless (IsBusyElsewhere (D.shown dir.old).process Area.Removed Mode.Exclusive) (away_spot draw)
        (D.shown dir.old).process (D.shown dir.old).trace (D.shown dir.new).trace) }
    ensures stays { D.observed ≡ true → Stays (MayPassStore Area.Removed) KeepsStandingAndRules (D.shown dir.old) (D.shown dir.new) }
    ensures lawful { IsErrOf result StoreError.Stray → D.observed ≡ true → (s : Seen) → Knows (D.shown dir.old) s → MayPassStore Area.Removed s
        → IsConforming (D.shown dir.new).trace → ⊥ }
{
    match lock_area(alloc, dir, Area::Removed, Mode::Exclusive) {
        Ok(gate) => {
            let result = delete_if_there(alloc, dir, draw.name());
            unlock_area(dir, gate);
            result
        }
        Err(error) => lock_free(error),
    }
}

/// Removes the image with this key: moves its folder from images to removed, under the draw's name, while
/// it holds the lock of images exclusively, and deletes it there where the lock of removed is free. Where
/// that lock is busy, the folder stays in removed until a later sweep.
///
/// `Busy` with images, where another process holds that area's lock; `NoImage`, where no image has this
/// key: in both the store is as it was. `Stray`, where the directory's answers contradict what the locks
/// keep; `DirFault`, where it failed; `NoMemory`, where memory ran out. No lock is held afterwards. Where it
/// is refused, no folder was deleted.
pub fn remove<D: Dir>(
    alloc: Global,
    dir: &mut D,
    key: StoreKey,
    draw: PodId,
) -> Result<(), StoreError>
    requires active { IsActive (D.shown dir.old).local }
    ensures worked { OnlyAsks D.observed (removes_at key draw) (D.shown dir.old) (D.shown dir.new) }
    ensures cause { IfErr result (λ e. ImageRemovalCause D.observed key draw e (D.shown dir.old) (D.shown dir.new)) }
    ensures kept { IfErr result (λ e. D.observed ≡ true → KeepsFolders (D.shown dir.old) (D.shown dir.new)) }
    ensures by_other_process { IfErr result (λ e. D.observed ≡ true → (s : Seen) → Knows (D.shown dir.old) s → MayRemoveImage draw s
        → RemovalBusyElsewhere e (D.shown dir.old) (D.shown dir.new)) }
    ensures removed { IfOk result (λ done. D.observed ≡ true
        → IsRemovedBetween (IsBusy Area.Removed Mode.Exclusive) key draw (D.shown dir.old) (D.shown dir.new)) }
    ensures removed_unless_another { IfOk result (λ done. D.observed ≡ true → (s : Seen) → Knows (D.shown dir.old) s → MayRemoveImage draw s
        → IsRemovedBetween (IsBusyElsewhere (D.shown dir.old).process Area.Removed Mode.Exclusive) key draw (D.shown dir.old) (D.shown dir.new)) }
    ensures conforms { D.observed ≡ true → Stays (MayRemoveImage draw) KeepsStandingAndRules (D.shown dir.old) (D.shown dir.new) }
    ensures lawful { IsErrOf result StoreError.Stray → D.observed ≡ true → (s : Seen) → Knows (D.shown dir.old) s → MayRemoveImage draw s
        → IsConforming (D.shown dir.new).trace → ⊥ }
{
    put_away_locked(alloc, dir, key, draw)?;
    delete_if_free(alloc, dir, draw)
}
