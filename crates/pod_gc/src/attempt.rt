// One round of a removal: the pod is looked for, and taken away where it is found.
ghost use Rattle.std.specs.Prelude.{◌≡◌, true, false, IfOk, IfErr};
ghost use Rattle.dir_trait.specs.Local.{IsActive, has_own_open};
ghost use Rattle.dir_trait.specs.Pods.{pod_text};
ghost use Rattle.dir_trait.specs.Effects.{OnlyAsks, Given};
ghost use Rattle.folder_removal.specs.Removal.{KeepsFolders};
ghost use Rattle.phase_read.specs.Often.{ReadsAtMost};
ghost use Rattle.pod_gc.specs.RemovalRequests.{is_removable, aside, removes};
ghost use Rattle.pod_locks.specs.Holding.{KeepsReady};
ghost use Rattle.pod_gc.specs.RemovalHolding.{MayRemovePod};
ghost use Rattle.pod_locks.specs.Causes.{NeverStray, StrayByApp};
ghost use Rattle.pod_gc.specs.RemovalCauses.{StoppedFound, BusyAny, HasDeletedPod};
ghost use Rattle.pod_gc.specs.Removals.{removal_round_of, WentRound, RoundCause, RoundByApp, RemovalRefusedByAnother};
ghost use Rattle.pod_gc.specs.Found.{RoundWent, RoundRefused, PutAwayIfObserved, TakenAwayIfObserved, MissedAtItsArea, MissedThereOrAside, RefusedAtItsArea, RefusedThereOrAside};

use crate::aside::put_dead_aside;
use crate::deletion::delete_at;
use crate::prepared::discard_prepared;
use crate::remove_error::{RemoveError, refusal};
use dir_trait::{Area, Dir, Phase, PodId};
use phase_read::{Found, read_phase};
use pod_locks::{Setback, look_setback};
use std::alloc::Global;

/// How a round ended that wasn't refused.
#[derive(Clone, Copy, Debug, PartialEq, Eq)]
pub(crate) enum Round {
    /// No pod was found.
    Gone,
    /// The pod was found, and removed.
    Removed,
    /// It was found, and missing after that where it had been found or put aside.
    Missed,
}

// A pod in this phase may be removed: nobody makes, runs or deletes it.
fn is_removable(phase: Phase) -> bool
    ensures { result ≡ is_removable phase }
{
    match phase {
        Phase::AbortedPrepare
        | Phase::Prepared
        | Phase::Exited
        | Phase::ExitedGarbage
        | Phase::Garbage => true,
        _ => false,
    }
}

// The garbage place where a pod with this phase is deleted.
fn aside(phase: Phase) -> Area
    ensures { result ≡ aside phase }
{
    match phase {
        Phase::Exited => Area::ExitedGarbage,
        Phase::ExitedGarbage => Area::ExitedGarbage,
        _ => Area::Garbage,
    }
}

// Brings a pod that was found with this phase to the garbage place where it is deleted.
fn put_away<D: Dir>(
    alloc: Global,
    dir: &mut D,
    pod: PodId,
    phase: Phase,
    now: u64,
) -> Result<(), Setback>
    requires active { IsActive (D.shown dir.old).local }
    ensures worked { OnlyAsks D.observed (removes pod now) (D.shown dir.old) (D.shown dir.new) }
    ensures reads { ReadsAtMost 0 D.observed pod (D.shown dir.old) (D.shown dir.new) }
    ensures stopped { IfErr result (λ e. StoppedFound D.observed pod phase e (D.shown dir.old) (D.shown dir.new)) }
    ensures lawful { IfErr result (λ e. NeverStray D.observed e (D.shown dir.new)) }
    ensures by_other_process { IfErr result (λ e. D.observed ≡ true → Given (MayRemovePod pod now) (D.shown dir.old)
        (λ s. BusyAny pod e (D.shown dir.old) (D.shown dir.new))) }
    ensures put { IfOk result (λ done. PutAwayIfObserved D.observed pod phase (D.shown dir.old) (D.shown dir.new)) }
    ensures missed { IfErr result (λ e. MissedAtItsArea D.observed pod phase e (D.shown dir.old) (D.shown dir.new)) }
    ensures refused { IfErr result (λ e. D.observed ≡ true → Given (MayRemovePod pod now) (D.shown dir.old)
        (λ s. RefusedAtItsArea pod phase e (D.shown dir.old) (D.shown dir.new))) }
    ensures kept { IfErr result (λ e. D.observed ≡ true → KeepsFolders (D.shown dir.old) (D.shown dir.new)) }
    ensures ready { D.observed ≡ true → Given (MayRemovePod pod now) (D.shown dir.old) (λ s. KeepsReady s (D.shown dir.new)) }
{
    match phase {
        Phase::AbortedPrepare => put_dead_aside(alloc, dir, pod, Area::Prepare, now),
        Phase::Prepared => discard_prepared(alloc, dir, pod, now),
        Phase::Exited => put_dead_aside(alloc, dir, pod, Area::Run, now),
        _ => Ok(()),
    }
}

// Takes a pod away that was found with this phase.
fn remove_found<D: Dir>(
    alloc: Global,
    dir: &mut D,
    pod: PodId,
    phase: Phase,
    now: u64,
) -> Result<(), Setback>
    requires active { IsActive (D.shown dir.old).local }
    ensures worked { OnlyAsks D.observed (removes pod now) (D.shown dir.old) (D.shown dir.new) }
    ensures reads { ReadsAtMost 0 D.observed pod (D.shown dir.old) (D.shown dir.new) }
    ensures stopped { IfErr result (λ e. StoppedFound D.observed pod phase e (D.shown dir.old) (D.shown dir.new)) }
    ensures lawful { IfErr result (λ e. StrayByApp D.observed e (MayRemovePod pod now) (D.shown dir.old) (D.shown dir.new)) }
    ensures by_other_process { IfErr result (λ e. D.observed ≡ true → Given (MayRemovePod pod now) (D.shown dir.old)
        (λ s. BusyAny pod e (D.shown dir.old) (D.shown dir.new))) }
    ensures removed { IfOk result (λ done. D.observed ≡ true
        → HasDeletedPod pod (D.shown dir.old).process (D.shown dir.old).trace (D.shown dir.new).trace) }
    ensures taken { IfOk result (λ done. TakenAwayIfObserved D.observed pod phase (D.shown dir.old) (D.shown dir.new)) }
    ensures missed { IfErr result (λ e. MissedThereOrAside D.observed pod phase e (D.shown dir.old) (D.shown dir.new)) }
    ensures refused { IfErr result (λ e. D.observed ≡ true → Given (MayRemovePod pod now) (D.shown dir.old)
        (λ s. RefusedThereOrAside pod phase e (D.shown dir.old) (D.shown dir.new))) }
    ensures kept { IfErr result (λ e. D.observed ≡ true → KeepsFolders (D.shown dir.old) (D.shown dir.new)) }
    ensures ready { D.observed ≡ true → Given (MayRemovePod pod now) (D.shown dir.old) (λ s. KeepsReady s (D.shown dir.new)) }
{
    put_away(alloc, dir, pod, phase, now)?;
    delete_at(alloc, dir, pod, aside(phase), now)
}

// A place that is empty ends the round, and everything else that sets it back the removal.
fn round_of(pod: PodId, answer: Result<(), Setback>) -> Result<Round, RemoveError>
    ensures { result ≡ removal_round_of pod answer }
{
    match answer {
        Ok(()) => Ok(Round::Removed),
        Err(Setback::Missing) => Ok(Round::Missed),
        Err(stop) => Err(refusal(pod, stop)),
    }
}

/// Looks for the pod, and takes it away where it is found in a phase that allows it.
pub(crate) fn attempt<D: Dir>(
    alloc: Global,
    dir: &mut D,
    pod: PodId,
    now: u64,
) -> Result<Round, RemoveError>
    requires active { IsActive (D.shown dir.old).local }
    requires alone { has_own_open (D.shown dir.old).local (pod_text pod.bytes) ≡ false }
    ensures worked { OnlyAsks D.observed (removes pod now) (D.shown dir.old) (D.shown dir.new) }
    ensures reads { ReadsAtMost 1 D.observed pod (D.shown dir.old) (D.shown dir.new) }
    ensures went { IfOk result (λ round. D.observed ≡ true → WentRound pod round (D.shown dir.old) (D.shown dir.new)) }
    ensures cause { IfErr result (λ e. RoundCause D.observed pod e (D.shown dir.old) (D.shown dir.new)) }
    ensures lawful { IfErr result (λ e. RoundByApp D.observed pod now e (D.shown dir.old) (D.shown dir.new)) }
    ensures by_other_process { IfErr result (λ e. D.observed ≡ true → Given (MayRemovePod pod now) (D.shown dir.old) (λ s. RemovalRefusedByAnother pod e (D.shown dir.old) (D.shown dir.new))) }
    ensures round { IfOk result (λ round. D.observed ≡ true → RoundWent pod round (D.shown dir.old) (D.shown dir.new)) }
    ensures refused { IfErr result (λ e. D.observed ≡ true → Given (MayRemovePod pod now) (D.shown dir.old) (λ s. RoundRefused pod e (D.shown dir.old) (D.shown dir.new))) }
    ensures kept { IfErr result (λ e. D.observed ≡ true → KeepsFolders (D.shown dir.old) (D.shown dir.new)) }
    ensures ready { D.observed ≡ true → Given (MayRemovePod pod now) (D.shown dir.old) (λ s. KeepsReady s (D.shown dir.new)) }
{
    match read_phase(alloc, dir, pod) {
        Ok(Found::At(phase, _)) => {
            if is_removable(phase) {
                round_of(pod, remove_found(alloc, dir, pod, phase, now))
            } else {
                Err(RemoveError::WrongPhase(phase))
            }
        }
        Ok(Found::Gone) => Ok(Round::Gone),
        Err(error) => Err(refusal(pod, look_setback(error))),
    }
}
