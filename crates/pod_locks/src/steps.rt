// Single steps at a pod: its locks at a place, and its moves.
ghost use Rattle.std.specs.Prelude.{◌≡◌, true, false, IfOk, IfErr};
ghost use Rattle.dir_model.specs.declared.spot.Mode.TheVariants as mode;
ghost use Rattle.dir_model.specs.declared.spot.Which.{Which};
ghost use Rattle.dir_model.specs.declared.spot.Which.TheVariants.{Own};
ghost use Rattle.dir_model.specs.declared.request.Request.TheVariants.{MoveFolder};
ghost use Rattle.dir_model.specs.declared.request.Reply.TheVariants.{Done};
ghost use Rattle.dir_model.specs.Areas.{is_stage};
ghost use Rattle.dir_trait.specs.Local.{IsActive, IsUnopened};
ghost use Rattle.dir_trait.specs.DirCalls.{ExtendsBy, LockToldBetween};
ghost use Rattle.dir_trait.specs.Knowledge.{Knows};
ghost use Rattle.dir_trait.specs.Effects.{OnlyAsks, LeavesOpen, Given};
ghost use Rattle.dir_model.specs.Spots.{pod_spot};
ghost use Rattle.pod_locks.specs.Requests.{looks_at, peeks_at, moves_pod};
ghost use Rattle.pod_locks.specs.Holding.{and_taken, with_pod_lock, MayLook, MayTakeLock, MayMove, LooksFree, KeepsReady};
ghost use Rattle.pod_locks.specs.Causes.{StepWasStopped, NeverStray, CannotOpenAt, IsAbsentAt, LockBusyElsewhere, FreeIfObserved, Did};
ghost use Rattle.pod_locks.specs.Taking.{TakesNothing};
ghost use Rattle.pod_locks.specs.LockTaking.{TakesLock};

use crate::setback::{Setback, lock_setback, set_back};
use dir_trait::{Area, Dir, Handle, Mode, PodId, Spot, Which};
use std::alloc::Global;

/// Opens the pod's own lock at a place, takes it shared, and gives it up: so nobody held it exclusively,
/// and nobody who keeps the rules will at this place. `Missing` where no folder of the pod stands there;
/// `Busy` where another process holds the lock exclusively.
pub fn probe<D: Dir>(alloc: Global, dir: &mut D, pod: PodId, area: Area) -> Result<(), Setback>
    requires active { IsActive (D.shown dir.old).local }
    ensures worked { OnlyAsks D.observed (looks_at pod area) (D.shown dir.old) (D.shown dir.new) }
    ensures peeks { D.observed ≡ true → ExtendsBy (peeks_at pod area) (D.shown dir.old) (D.shown dir.new) }
    ensures stopped { IfErr result (λ e. StepWasStopped D.observed pod (IsAbsentAt pod area) e (D.shown dir.old) (D.shown dir.new)) }
    ensures never { IfErr result (λ e. e ≡ Setback.Stray → ⊥) }
    ensures named { IfErr result (λ e. (which : Which) → e ≡ Setback.Busy which → which ≡ Own) }
    ensures by_other_process { IfErr result (λ e. D.observed ≡ true → Given (MayLook pod area) (D.shown dir.old)
        (λ s. LockBusyElsewhere pod area mode.Shared e (D.shown dir.old) (D.shown dir.new))) }
    ensures answer_holds { IfOk result (λ done. D.observed ≡ true → LockToldBetween (D.shown dir.old) (D.shown dir.new) (pod_spot pod area) false) }
    ensures owned { IfErr result (λ e. (which : Which) → e ≡ Setback.Busy which → D.observed ≡ true → LockToldBetween (D.shown dir.old) (D.shown dir.new) (pod_spot pod area) true) }
    ensures free { IfOk result (λ done. D.observed ≡ true → Given (MayLook pod area) (D.shown dir.old) (λ s. LooksFree pod area s (D.shown dir.new))) }
    ensures left { IfErr result (λ e. D.observed ≡ true → Given (MayLook pod area) (D.shown dir.old) (λ s. Knows (D.shown dir.new) s)) }
{
    match dir.open(alloc, Spot::of_pod(pod, area), Which::Own) {
        Ok(handle) => {
            let answer = dir.try_lock(alloc, handle, Mode::Shared);
            dir.close(handle);
            match answer {
                Ok(()) => Ok(()),
                Err(error) => Err(lock_setback(Which::Own, error)),
            }
        }
        Err(error) => Err(set_back(error)),
    }
}

/// Opens a lock of the pod at a place and takes it exclusively: its activation lock in prepared, or its
/// own in a garbage place. `Missing` where no folder of the pod stands there, and for the activation lock
/// also where it has no manifest; `Busy` where another process holds the lock.
pub fn take<D: Dir>(
    alloc: Global,
    dir: &mut D,
    pod: PodId,
    area: Area,
    which: Which,
) -> Result<Handle, Setback>
    requires active { IsActive (D.shown dir.old).local }
    ensures went { LeavesOpen D.observed (looks_at pod area) (and_taken (D.shown dir.old).local pod area which result) (D.shown dir.old) (D.shown dir.new) }
    ensures unopened { IfOk result (λ handle. IsUnopened (D.shown dir.old).local handle) }
    ensures stopped { IfErr result (λ e. StepWasStopped D.observed pod (CannotOpenAt pod area which) e (D.shown dir.old) (D.shown dir.new)) }
    ensures calls { TakesLock D.observed (pod_spot pod area) which result (D.shown dir.old) (D.shown dir.new) }
    ensures never { IfErr result (λ e. e ≡ Setback.Stray → ⊥) }
    ensures named { IfErr result (λ e. (other : Which) → e ≡ Setback.Busy other → other ≡ which) }
    ensures by_other_process { IfErr result (λ e. D.observed ≡ true → Given (MayTakeLock pod area which) (D.shown dir.old)
        (λ s. LockBusyElsewhere pod area mode.Exclusive e (D.shown dir.old) (D.shown dir.new))) }
    ensures free { IfOk result (λ handle. FreeIfObserved D.observed pod area which mode.Exclusive (D.shown dir.old) (D.shown dir.new)) }
    ensures held { IfOk result (λ handle. D.observed ≡ true → Given (MayTakeLock pod area which) (D.shown dir.old)
        (λ s. Knows (D.shown dir.new) (with_pod_lock pod area which handle s))) }
    ensures left { IfErr result (λ e. D.observed ≡ true → Given (MayTakeLock pod area which) (D.shown dir.old) (λ s. Knows (D.shown dir.new) s)) }
{
    match dir.open(alloc, Spot::of_pod(pod, area), which) {
        Ok(handle) => match dir.try_lock(alloc, handle, Mode::Exclusive) {
            Ok(()) => Ok(handle),
            Err(error) => {
                dir.close(handle);
                Err(lock_setback(which, error))
            }
        },
        Err(error) => Err(set_back(error)),
    }
}

/// Moves the pod to a garbage place. `Missing` where it doesn't stand at the place from which it goes;
/// `Stray` where another folder has its garbage place, which no pod meets while every process keeps the
/// local rules.
pub fn put_aside<D: Dir>(
    alloc: Global,
    dir: &mut D,
    pod: PodId,
    from: Area,
    to: Area,
) -> Result<(), Setback>
    requires active { IsActive (D.shown dir.old).local }
    ensures worked { OnlyAsks D.observed (moves_pod pod from to) (D.shown dir.old) (D.shown dir.new) }
    ensures stopped { IfErr result (λ e. StepWasStopped D.observed pod (IsAbsentAt pod from) e (D.shown dir.old) (D.shown dir.new)) }
    ensures lawful { IfErr result (λ e. is_stage from ≡ true → NeverStray D.observed e (D.shown dir.new)) }
    ensures never_busy { IfErr result (λ e. (which : Which) → e ≡ Setback.Busy which → ⊥) }
    ensures done { IfOk result (λ done. D.observed ≡ true
        → Did (MoveFolder (pod_spot pod from) (pod_spot pod to)) Done (D.shown dir.old).process (D.shown dir.old).trace (D.shown dir.new).trace) }
    ensures takes_nothing { IfErr result (λ e. TakesNothing D.observed (D.shown dir.old) (D.shown dir.new)) }
    ensures ready { D.observed ≡ true → Given (MayMove pod from to) (D.shown dir.old) (λ s. KeepsReady s (D.shown dir.new)) }
{
    match dir.move_folder(alloc, Spot::of_pod(pod, from), Spot::of_pod(pod, to)) {
        Ok(()) => Ok(()),
        Err(error) => Err(set_back(error)),
    }
}
