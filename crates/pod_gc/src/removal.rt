// A pod is removed.
ghost use Rattle.std.specs.Prelude.{◌≡◌, true, false, IfOk, IfErr, IsErrOf};
ghost use Rattle.dir_trait.specs.Local.{IsActive, has_own_open};
ghost use Rattle.dir_trait.specs.Pods.{pod_text};
ghost use Rattle.dir_trait.specs.Effects.{OnlyAsks, Given};
ghost use Rattle.folder_removal.specs.Removal.{KeepsFolders};
ghost use Rattle.phase_read.specs.Often.{ReadsAtMost};
ghost use Rattle.pod_gc.specs.RemovalRequests.{removes};
ghost use Rattle.pod_locks.specs.Holding.{KeepsReady};
ghost use Rattle.pod_gc.specs.RemovalHolding.{MayRemovePod};
ghost use Rattle.impossible_replies.specs.Replies.{AppWroteOn};
ghost use Rattle.lifecycle.specs.Executions.{IsConforming};
ghost use Rattle.pod_gc.specs.Hindrances.{IsUnhinderedThroughout, IsRemovalFailure};
ghost use Rattle.pod_gc.specs.Removals.{RemovedBetween, RemovedLater, PodRemovalCause, LaterCause, LaterByApp, RemovalRefusedByAnother};
ghost use Rattle.pod_gc.specs.Found.{RemovedFirst, RefusedFirst};

use crate::attempt::{Round, attempt};
use crate::remove_error::RemoveError;
use dir_trait::{Dir, PodId};
use std::alloc::Global;

// The rounds after the first, in which the pod was found: gone is as good as removed. A pod moves only
// forward through six places, so it can't be missed six times.
fn remove_later<D: Dir>(alloc: Global, dir: &mut D, pod: PodId, now: u64) -> Result<(), RemoveError>
    requires active { IsActive (D.shown dir.old).local }
    requires alone { has_own_open (D.shown dir.old).local (pod_text pod.bytes) ≡ false }
    ensures worked { OnlyAsks D.observed (removes pod now) (D.shown dir.old) (D.shown dir.new) }
    ensures reads { ReadsAtMost 5 D.observed pod (D.shown dir.old) (D.shown dir.new) }
    ensures removed { IfOk result (λ done. D.observed ≡ true → RemovedLater pod (D.shown dir.old) (D.shown dir.new)) }
    ensures cause { IfErr result (λ e. LaterCause D.observed pod e (D.shown dir.old) (D.shown dir.new)) }
    ensures lawful { IfErr result (λ e. LaterByApp D.observed pod now e (D.shown dir.old) (D.shown dir.new)) }
    ensures by_other_process { IfErr result (λ e. D.observed ≡ true → Given (MayRemovePod pod now) (D.shown dir.old) (λ s. RemovalRefusedByAnother pod e (D.shown dir.old) (D.shown dir.new))) }
    ensures kept { IfErr result (λ e. D.observed ≡ true → KeepsFolders (D.shown dir.old) (D.shown dir.new)) }
    ensures ready { D.observed ≡ true → Given (MayRemovePod pod now) (D.shown dir.old) (λ s. KeepsReady s (D.shown dir.new)) }
{
    'rounds: for _round in 0..5u8 {
        match attempt(alloc, dir, pod, now)? {
            Round::Missed => {}
            Round::Gone => return Ok(()),
            Round::Removed => return Ok(()),
        }
    }
    Err(RemoveError::Stray)
}

/// Removes a pod. One that nobody makes or runs is moved to a garbage place, an exited one with a mark of
/// the moment, and deleted there under its own lock. Where another process moved it meanwhile, its phase is
/// read again, six times at most; a pod that was there at the first read and is gone at a later one is
/// removed.
///
/// Refused in this order, and then the pod is whole or in a garbage place, and no folder was deleted. `NoPod` where there is none.
/// `WrongPhase` where it is an embryo, or another process makes, runs or deletes it. `NoManifest` where it stands in
/// prepared without the file `pod`. `Busy` where another process holds its activation lock or its own.
/// `Stray` where the directory's answers contradict each other or what a lock keeps: while every process
/// keeps the local rules, only where a program that outlived its pod writes on. `DirFault` and
/// `NoMemory` where the directory failed or memory ran out. No lock is held afterwards.
pub fn remove_pod<D: Dir>(
    alloc: Global,
    dir: &mut D,
    pod: PodId,
    now: u64,
) -> Result<(), RemoveError>
    requires active { IsActive (D.shown dir.old).local }
    requires alone { has_own_open (D.shown dir.old).local (pod_text pod.bytes) ≡ false }
    ensures worked { OnlyAsks D.observed (removes pod now) (D.shown dir.old) (D.shown dir.new) }
    ensures reads { ReadsAtMost 6 D.observed pod (D.shown dir.old) (D.shown dir.new) }
    ensures removed { IfOk result (λ done. D.observed ≡ true → RemovedBetween pod (D.shown dir.old) (D.shown dir.new)) }
    ensures cause { IfErr result (λ e. PodRemovalCause D.observed pod e (D.shown dir.old) (D.shown dir.new)) }
    ensures lawful { IsErrOf result RemoveError.Stray → D.observed ≡ true → Given (MayRemovePod pod now) (D.shown dir.old) (λ s. IsConforming (D.shown dir.new).trace
        → AppWroteOn (D.shown dir.old).process (D.shown dir.old).trace (D.shown dir.new).trace) }
    ensures by_other_process { IfErr result (λ e. D.observed ≡ true → Given (MayRemovePod pod now) (D.shown dir.old) (λ s. RemovalRefusedByAnother pod e (D.shown dir.old) (D.shown dir.new))) }
    ensures first { IfOk result (λ done. D.observed ≡ true → RemovedFirst pod (D.shown dir.old) (D.shown dir.new)) }
    ensures refused { IfErr result (λ e. D.observed ≡ true → Given (MayRemovePod pod now) (D.shown dir.old) (λ s. RefusedFirst pod e (D.shown dir.old) (D.shown dir.new))) }
    ensures kept { IfErr result (λ e. D.observed ≡ true → KeepsFolders (D.shown dir.old) (D.shown dir.new)) }
    ensures ready { D.observed ≡ true → Given (MayRemovePod pod now) (D.shown dir.old) (λ s. KeepsReady s (D.shown dir.new)) }
    ensures complete { IfErr result (λ e. D.observed ≡ true → Given (MayRemovePod pod now) (D.shown dir.old) (λ s. IsConforming (D.shown dir.new).trace
        → IsUnhinderedThroughout pod (D.shown dir.old).process (D.shown dir.old).trace (D.shown dir.new).trace
        → IsRemovalFailure e (D.shown dir.old).process (D.shown dir.old).trace (D.shown dir.new).trace)) }
{
    match attempt(alloc, dir, pod, now)? {
        Round::Gone => Err(RemoveError::NoPod),
        Round::Removed => Ok(()),
        Round::Missed => remove_later(alloc, dir, pod, now),
    }
}
