// The lock of an area, taken and given back.
ghost use Rattle.std.specs.Prelude.{◌≡◌, ◌+◌, ◌≤◌, true, false, Some, IfOk, IfErr, IsErrOf};
ghost use Rattle.dir_rules.specs.declared.seen.Seen.{Seen};
ghost use Rattle.dir_rules.specs.Standing.{is_in, is_known};
ghost use Rattle.dir_rules.specs.Conforms.{seen_replied};
ghost use Rattle.dir_trait.specs.Causes.{Rose};
ghost use Rattle.dir_trait.specs.Local.{IsActive, IsOpen, IsUnopened, without};
ghost use Rattle.dir_trait.specs.DirCalls.{ExtendsBy, HeldBetween};
ghost use Rattle.dir_trait.specs.Knowledge.{Knows};
ghost use Rattle.dir_files.specs.AreaLocks.{is_taking_area, closes, and_area_lock, with_gate, is_free_of, MayLock, IsBusy, IsBusyElsewhere, IsFreeElsewhere, shared_given, exclusive_given};

use crate::lock_error::{LockError, lock_error};
use dir_trait::{Area, Dir, Handle, Mode, Reply, Request};
use std::alloc::Global;

/// Opens the lock of an area and takes it. `Busy` where another handle holds it in a mode that
/// conflicts, `DirFault` where the directory failed, `NoMemory` where memory ran out. At each refusal
/// nothing more is open than before.
pub fn lock_area<D: Dir>(
    alloc: Global,
    dir: &mut D,
    area: Area,
    mode: Mode,
) -> Result<Handle, LockError>
    requires active { IsActive (D.shown dir.old).local }
    ensures counted { (D.shown dir.new).calls ≤ (D.shown dir.old).calls + 3 }
    ensures same { (D.shown dir.new).process ≡ (D.shown dir.old).process }
    ensures faults { (D.shown dir.old).faults ≤ (D.shown dir.new).faults }
    ensures cause { IsErrOf result LockError.DirFault → Rose (D.shown dir.old).faults (D.shown dir.new).faults }
    ensures held { IfOk result (λ handle. (D.shown dir.new).local ≡ and_area_lock (D.shown dir.old).local handle area mode) }
    ensures refused { IfErr result (λ e. (D.shown dir.new).local ≡ (D.shown dir.old).local) }
    ensures unopened { IfOk result (λ handle. IsUnopened (D.shown dir.old).local handle) }
    ensures extends { D.observed ≡ true → ExtendsBy (is_taking_area area mode) (D.shown dir.old) (D.shown dir.new) }
    ensures busy { IsErrOf result LockError.Busy → D.observed ≡ true
        → HeldBetween (D.shown dir.old) (D.shown dir.new) (IsBusy area mode) }
    ensures by_other_process { IsErrOf result LockError.Busy → D.observed ≡ true
        → (s : Seen) → Knows (D.shown dir.old) s → is_free_of area s ≡ true
        → HeldBetween (D.shown dir.old) (D.shown dir.new) (IsBusyElsewhere (D.shown dir.old).process area mode) }
    ensures free { IfOk result (λ handle. D.observed ≡ true
        → HeldBetween (D.shown dir.old) (D.shown dir.new) (IsFreeElsewhere (D.shown dir.old).process area mode)) }
    ensures taken { IfOk result (λ handle. D.observed ≡ true
        → (s : Seen) → Knows (D.shown dir.old) s → MayLock s area mode
        → Knows (D.shown dir.new) (with_gate s handle area (Some mode))) }
    ensures left { IfErr result (λ e. D.observed ≡ true
        → (s : Seen) → Knows (D.shown dir.old) s → MayLock s area mode → Knows (D.shown dir.new) s) }
{
    match dir.open_area(alloc, area) {
        Ok(handle) => match dir.try_lock(alloc, handle, mode) {
            Ok(()) => Ok(handle),
            Err(error) => {
                dir.close(handle);
                Err(lock_error(error))
            }
        },
        Err(error) => Err(lock_error(error)),
    }
}

/// Gives a handle up, and the lock of an area that it holds. Takes no memory.
pub fn unlock_area<D: Dir>(dir: &mut D, handle: Handle)
    requires active { IsActive (D.shown dir.old).local }
    requires open { IsOpen (D.shown dir.old).local handle }
    ensures counted { (D.shown dir.new).calls ≤ (D.shown dir.old).calls + 1 }
    ensures same { (D.shown dir.new).process ≡ (D.shown dir.old).process }
    ensures faultless { (D.shown dir.new).faults ≡ (D.shown dir.old).faults }
    ensures local { (D.shown dir.new).local ≡ without (D.shown dir.old).local handle }
    ensures extends { D.observed ≡ true → ExtendsBy (closes handle) (D.shown dir.old) (D.shown dir.new) }
    ensures gives { D.observed ≡ true → (s : Seen) → Knows (D.shown dir.old) s
        → Knows (D.shown dir.new) (seen_replied s (Request.Close handle) Reply.Done) }
    ensures given { D.observed ≡ true → (s : Seen) → (area : Area) → is_in Area.Embryo area ≡ false
        → is_known handle s.standing ≡ false → Knows (D.shown dir.old) (with_gate s handle area (Some Mode.Shared))
        → Knows (D.shown dir.new) (shared_given area s) }
    ensures given_exclusive { D.observed ≡ true → (s : Seen) → (area : Area)
        → is_known handle s.standing ≡ false → Knows (D.shown dir.old) (with_gate s handle area (Some Mode.Exclusive))
        → Knows (D.shown dir.new) (exclusive_given area s) }
{
    dir.close(handle);
}
