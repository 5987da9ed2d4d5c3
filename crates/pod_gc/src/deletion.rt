// A pod in a garbage place is deleted under its own lock.
ghost use Rattle.std.specs.Prelude.{◌≡◌, true, false, IfOk, IfErr};
ghost use Rattle.dir_model.specs.declared.spot.Mode.TheVariants as mode;
ghost use Rattle.dir_model.specs.declared.spot.Which.{Which};
ghost use Rattle.dir_model.specs.declared.spot.Which.TheVariants.{Own};
ghost use Rattle.dir_model.specs.declared.request.Request.TheVariants.{RemoveFolder};
ghost use Rattle.dir_model.specs.declared.request.Reply.TheVariants.{Done};
ghost use Rattle.dir_model.specs.State.{stands};
ghost use Rattle.dir_trait.specs.DirCalls.{HeldBetween};
ghost use Rattle.dir_trait.specs.Local.{IsActive};
ghost use Rattle.dir_trait.specs.Effects.{OnlyAsks, Given};
ghost use Rattle.folder_removal.specs.Known.{StrayKnowing};
ghost use Rattle.folder_removal.specs.Removal.{KeepsFolders};
ghost use Rattle.phase_read.specs.Often.{ReadsAtMost};
ghost use Rattle.dir_model.specs.Spots.{pod_spot};
ghost use Rattle.pod_gc.specs.RemovalRequests.{is_garbage_place, deletes_in, removes};
ghost use Rattle.pod_locks.specs.Holding.{KeepsReady};
ghost use Rattle.pod_gc.specs.RemovalHolding.{MayRemove, HasOwn, KeepsBut};
ghost use Rattle.pod_locks.specs.Causes.{StepWasStopped, StrayByApp, IsAbsentAt, LockBusyElsewhere, FreeIfObserved, Did};
ghost use Rattle.pod_gc.specs.RemovalCauses.{BusyByLooks, StoppedDeleting, MissedUntaken};

use dir_trait::{Area, Dir, PodId, Spot, Which};
use folder_removal::delete_folder;
use phase_read::look;
use pod_locks::{Setback, delete_setback, look_setback, take};
use std::alloc::Global;

// Deletes the pod's folder under its own lock.
fn delete_standing<D: Dir>(
    alloc: Global,
    dir: &mut D,
    pod: PodId,
    area: Area,
) -> Result<(), Setback>
    requires active { IsActive (D.shown dir.old).local }
    requires garbage { is_garbage_place area ≡ true }
    ensures worked { OnlyAsks D.observed (deletes_in pod area) (D.shown dir.old) (D.shown dir.new) }
    ensures stopped { IfErr result (λ e. StoppedDeleting D.observed (pod_spot pod area) e (D.shown dir.old) (D.shown dir.new)) }
    ensures knew { IfErr result (λ e. e ≡ Setback.Stray → D.observed ≡ true → Given (HasOwn pod area) (D.shown dir.old)
        (λ s. StrayKnowing (pod_spot pod area) (D.shown dir.old).process (D.shown dir.new).trace)) }
    ensures never_busy { IfErr result (λ e. (which : Which) → e ≡ Setback.Busy which → ⊥) }
    ensures done { IfOk result (λ done. D.observed ≡ true
        → Did (RemoveFolder (pod_spot pod area)) Done (D.shown dir.old).process (D.shown dir.old).trace (D.shown dir.new).trace) }
    ensures kept { IfErr result (λ e. D.observed ≡ true → KeepsFolders (D.shown dir.old) (D.shown dir.new)) }
    ensures known { D.observed ≡ true → Given (HasOwn pod area) (D.shown dir.old) (λ s. KeepsBut pod area s (D.shown dir.new)) }
{
    match delete_folder(alloc, dir, Spot::of_pod(pod, area)) {
        Ok(()) => Ok(()),
        Err(error) => Err(delete_setback(error)),
    }
}

// The same where another process may have deleted it before this one had the lock: then nothing stands
// there.
fn delete_if_there<D: Dir>(
    alloc: Global,
    dir: &mut D,
    pod: PodId,
    area: Area,
) -> Result<(), Setback>
    requires active { IsActive (D.shown dir.old).local }
    requires garbage { is_garbage_place area ≡ true }
    ensures worked { OnlyAsks D.observed (deletes_in pod area) (D.shown dir.old) (D.shown dir.new) }
    ensures stopped { IfErr result (λ e. StepWasStopped D.observed pod (IsAbsentAt pod area) e (D.shown dir.old) (D.shown dir.new)) }
    ensures lawful { IfErr result (λ e. StrayByApp D.observed e (HasOwn pod area) (D.shown dir.old) (D.shown dir.new)) }
    ensures never_busy { IfErr result (λ e. (which : Which) → e ≡ Setback.Busy which → ⊥) }
    ensures takes_nothing { IfErr result (λ e. MissedUntaken D.observed e (D.shown dir.old) (D.shown dir.new)) }
    ensures stood { IfErr result (λ e. e ≡ Setback.Stray → D.observed ≡ true
        → HeldBetween (D.shown dir.old) (D.shown dir.new) (λ s. stands s.namespace (pod_spot pod area) ≡ true)) }
    ensures done { IfOk result (λ done. D.observed ≡ true
        → Did (RemoveFolder (pod_spot pod area)) Done (D.shown dir.old).process (D.shown dir.old).trace (D.shown dir.new).trace) }
    ensures kept { IfErr result (λ e. D.observed ≡ true → KeepsFolders (D.shown dir.old) (D.shown dir.new)) }
    ensures known { D.observed ≡ true → Given (HasOwn pod area) (D.shown dir.old) (λ s. KeepsBut pod area s (D.shown dir.new)) }
{
    match look(alloc, dir, Spot::of_pod(pod, area)) {
        Ok(true) => delete_standing(alloc, dir, pod, area),
        Ok(false) => Err(Setback::Missing),
        Err(error) => Err(look_setback(error)),
    }
}

/// Deletes a pod that stands in a garbage place, while this process holds its own lock exclusively, by a
/// handle that it opened there. `Missing` where the pod doesn't stand there, or doesn't any more once the
/// lock is had; `Busy` where another process holds its own lock; `Stray` where the directory's answers
/// contradict what the lock keeps: while every process keeps the local rules, only where a program that
/// outlived its pod writes on.
pub fn delete_at<D: Dir>(
    alloc: Global,
    dir: &mut D,
    pod: PodId,
    area: Area,
    now: u64,
) -> Result<(), Setback>
    requires active { IsActive (D.shown dir.old).local }
    requires garbage { is_garbage_place area ≡ true }
    ensures worked { OnlyAsks D.observed (removes pod now) (D.shown dir.old) (D.shown dir.new) }
    ensures reads { ReadsAtMost 0 D.observed pod (D.shown dir.old) (D.shown dir.new) }
    ensures stopped { IfErr result (λ e. StepWasStopped D.observed pod (IsAbsentAt pod area) e (D.shown dir.old) (D.shown dir.new)) }
    ensures lawful { IfErr result (λ e. StrayByApp D.observed e (MayRemove now) (D.shown dir.old) (D.shown dir.new)) }
    ensures by_other_process { IfErr result (λ e. D.observed ≡ true → Given (MayRemove now) (D.shown dir.old)
        (λ s. LockBusyElsewhere pod area mode.Exclusive e (D.shown dir.old) (D.shown dir.new))) }
    ensures done { IfOk result (λ done. D.observed ≡ true
        → Did (RemoveFolder (pod_spot pod area)) Done (D.shown dir.old).process (D.shown dir.old).trace (D.shown dir.new).trace) }
    ensures named { IfErr result (λ e. (which : Which) → e ≡ Setback.Busy which → which ≡ Own) }
    ensures free { IfOk result (λ done. FreeIfObserved D.observed pod area Own mode.Exclusive (D.shown dir.old) (D.shown dir.new)) }
    ensures looks { IfErr result (λ e. BusyByLooks D.observed pod area e (D.shown dir.old) (D.shown dir.new)) }
    ensures takes_nothing { IfErr result (λ e. MissedUntaken D.observed e (D.shown dir.old) (D.shown dir.new)) }
    ensures kept { IfErr result (λ e. D.observed ≡ true → KeepsFolders (D.shown dir.old) (D.shown dir.new)) }
    ensures ready { D.observed ≡ true → Given (MayRemove now) (D.shown dir.old) (λ s. KeepsReady s (D.shown dir.new)) }
{
    let own = take(alloc, dir, pod, area, Which::Own)?;
    let result = delete_if_there(alloc, dir, pod, area);
    dir.close(own);
    result
}
