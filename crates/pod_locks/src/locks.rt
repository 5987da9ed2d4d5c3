// The two locks of a prepared pod, and its move to run under both.
ghost use Rattle.std.specs.Prelude.{◌≡◌, [], true, IfOk, IfErr};
ghost use Rattle.dir_model.specs.declared.pod.PodId.{PodId};
ghost use Rattle.dir_model.specs.declared.spot.Which.{Which};
ghost use Rattle.dir_model.specs.declared.spot.Which.TheVariants as lock;
ghost use Rattle.dir_trait.specs.Local.{IsActive, IsUnopened};
ghost use Rattle.dir_trait.specs.Knowledge.{Knows, OnlyLooks, LookedInto};
ghost use Rattle.phase_read.specs.Often.{ReadsAtMost};
ghost use Rattle.pod_locks.specs.ClaimHolding.{MayTakePrepared, MayClaim, HasClaim, and_locked, with_prepared_lock, with_pod};
ghost use Rattle.pod_locks.specs.Work.{WentClaiming, InOrder, MovedNothing, taking_deeds, moving_deeds, TookBoth, WhereObservedKnew};
ghost use Rattle.pod_locks.specs.ClaimCauses.{ClaimWasStopped, ClaimStopsAlone, IsNotInPrepared, CannotOpen, ClaimBusyElsewhere, BusyInTurn, HadAlone, HadBothAlone};
ghost use Rattle.pod_locks.specs.Claims.{HasPod};

use crate::claim_error::ClaimError;
use crate::claim_setback::{Setback, look_refusal, set_back, step_setback};
use crate::steps::take;
use dir_trait::{Area, Dir, Handle, PodId, Spot, Which};
use phase_read::look;
use std::alloc::Global;

// Takes a lock of the pod in prepared.
fn take_prepared<D: Dir>(
    alloc: Global,
    dir: &mut D,
    pod: PodId,
    which: Which,
) -> Result<Handle, Setback>
    requires active { IsActive (D.shown dir.old).local }
    ensures went { WentClaiming D.observed 3 pod (and_locked (D.shown dir.old).local pod which result) (D.shown dir.old) (D.shown dir.new) }
    ensures reads { ReadsAtMost 0 D.observed pod (D.shown dir.old) (D.shown dir.new) }
    ensures unopened { IfOk result (λ handle. IsUnopened (D.shown dir.old).local handle) }
    ensures order { IfOk result (λ handle. D.observed ≡ true
        → InOrder (D.shown dir.old).process (D.shown dir.old).trace (D.shown dir.new).trace (taking_deeds pod which handle [])) }
    ensures moves_nothing { IfOk result (λ handle. D.observed ≡ true
        → MovedNothing (D.shown dir.old).process (D.shown dir.old).trace (D.shown dir.new).trace) }
    ensures stopped { IfErr result (λ e. ClaimWasStopped D.observed pod (CannotOpen pod which) e (D.shown dir.old) (D.shown dir.new)) }
    ensures by_other_process { IfErr result (λ e. WhereObservedKnew D.observed (MayTakePrepared pod which) (D.shown dir.old)
        (λ s. ClaimBusyElsewhere pod e (D.shown dir.old) (D.shown dir.new))) }
    ensures alone { IfOk result (λ handle. D.observed ≡ true → HadAlone pod which (D.shown dir.old).process (D.shown dir.old).trace (D.shown dir.new).trace) }
    ensures own { IfErr result (λ e. (other : PodId) (named : Which) → e ≡ Setback.Refused (ClaimError.Busy other named) → named ≡ which) }
    ensures held { IfOk result (λ handle. WhereObservedKnew D.observed (MayTakePrepared pod which) (D.shown dir.old)
        (λ s. Knows (D.shown dir.new) (with_prepared_lock pod which handle s))) }
    ensures left { IfErr result (λ e. WhereObservedKnew D.observed (MayTakePrepared pod which) (D.shown dir.old) (λ s. Knows (D.shown dir.new) s)) }
{
    match take(alloc, dir, pod, Area::Prepared, which) {
        Ok(handle) => Ok(handle),
        Err(stop) => Err(step_setback(pod, stop)),
    }
}

// Takes Own and moves the pod to run, under Claim: whoever removes pods asks for Claim first, so
// the folder that was opened is the one that is moved.
fn run_under_claim<D: Dir>(alloc: Global, dir: &mut D, pod: PodId) -> Result<Handle, Setback>
    requires active { IsActive (D.shown dir.old).local }
    ensures went { WentClaiming D.observed 5 pod (and_locked (D.shown dir.old).local pod lock.Own result) (D.shown dir.old) (D.shown dir.new) }
    ensures reads { ReadsAtMost 0 D.observed pod (D.shown dir.old) (D.shown dir.new) }
    ensures unopened { IfOk result (λ own. IsUnopened (D.shown dir.old).local own) }
    ensures order { IfOk result (λ own. D.observed ≡ true
        → InOrder (D.shown dir.old).process (D.shown dir.old).trace (D.shown dir.new).trace (taking_deeds pod lock.Own own (moving_deeds pod))) }
    ensures alone { IfOk result (λ own. D.observed ≡ true → HadAlone pod lock.Own (D.shown dir.old).process (D.shown dir.old).trace (D.shown dir.new).trace) }
    ensures stopped { IfErr result (λ e. ClaimWasStopped D.observed pod (IsNotInPrepared pod) e (D.shown dir.old) (D.shown dir.new)) }
    ensures by_other_process { IfErr result (λ e. WhereObservedKnew D.observed (HasClaim pod) (D.shown dir.old)
        (λ s. ClaimBusyElsewhere pod e (D.shown dir.old) (D.shown dir.new))) }
    ensures held { IfOk result (λ own. WhereObservedKnew D.observed (HasClaim pod) (D.shown dir.old)
        (λ s. Knows (D.shown dir.new) (with_pod pod own s))) }
    ensures left { IfErr result (λ e. WhereObservedKnew D.observed (HasClaim pod) (D.shown dir.old) (λ s. Knows (D.shown dir.new) s)) }
{
    let own = take_prepared(alloc, dir, pod, Which::Own)?;
    let from = Spot::of_pod(pod, Area::Prepared);
    let to = Spot::of_pod(pod, Area::Run);
    match dir.move_folder(alloc, from, to) {
        Ok(()) => Ok(own),
        Err(error) => {
            dir.close(own);
            Err(set_back(error))
        }
    }
}

// Claim couldn't be opened: the pod's folder is gone from prepared, or it has no manifest.
fn without_claim<D: Dir>(alloc: Global, dir: &mut D, pod: PodId) -> Setback
    requires active { IsActive (D.shown dir.old).local }
    ensures went { WentClaiming D.observed 2 pod (D.shown dir.old).local (D.shown dir.old) (D.shown dir.new) }
    ensures reads { ReadsAtMost 0 D.observed pod (D.shown dir.old) (D.shown dir.new) }
    ensures stopped { ClaimStopsAlone D.observed pod result (D.shown dir.old) (D.shown dir.new) }
    ensures left { D.observed ≡ true → OnlyLooks (D.shown dir.old) (D.shown dir.new) }
{
    match look(alloc, dir, Spot::of_pod(pod, Area::Prepared)) {
        Ok(true) => Setback::Refused(ClaimError::NoManifest),
        Ok(false) => Setback::Missing,
        Err(error) => Setback::Refused(look_refusal(error)),
    }
}

/// Takes Claim of the pod, and under it Own, and moves the pod to run. Claim is given up again.
pub(crate) fn take_and_run<D: Dir>(
    alloc: Global,
    dir: &mut D,
    pod: PodId,
) -> Result<Handle, Setback>
    requires active { IsActive (D.shown dir.old).local }
    ensures went { WentClaiming D.observed 9 pod (and_locked (D.shown dir.old).local pod lock.Own result) (D.shown dir.old) (D.shown dir.new) }
    ensures reads { ReadsAtMost 0 D.observed pod (D.shown dir.old) (D.shown dir.new) }
    ensures unopened { IfOk result (λ own. IsUnopened (D.shown dir.old).local own) }
    ensures order { IfOk result (λ own. D.observed ≡ true
        → TookBoth pod own (D.shown dir.old).process (D.shown dir.old).trace (D.shown dir.new).trace) }
    ensures alone { IfOk result (λ own. D.observed ≡ true → HadBothAlone pod (D.shown dir.old).process (D.shown dir.old).trace (D.shown dir.new).trace) }
    ensures stopped { IfErr result (λ e. ClaimWasStopped D.observed pod (IsNotInPrepared pod) e (D.shown dir.old) (D.shown dir.new)) }
    ensures by_other_process { IfErr result (λ e. WhereObservedKnew D.observed MayClaim (D.shown dir.old)
        (λ s. BusyInTurn pod e (D.shown dir.old) (D.shown dir.new))) }
    ensures held { IfOk result (λ own. WhereObservedKnew D.observed MayClaim (D.shown dir.old)
        (λ s. Knows (D.shown dir.new) (with_pod pod own s))) }
    ensures left { IfErr result (λ e. WhereObservedKnew D.observed MayClaim (D.shown dir.old) (λ s. LookedInto s (D.shown dir.new))) }
{
    match take_prepared(alloc, dir, pod, Which::Claim) {
        Ok(claim) => {
            let result = run_under_claim(alloc, dir, pod);
            dir.close(claim);
            result
        }
        Err(Setback::Missing) => Err(without_claim(alloc, dir, pod)),
        Err(stop) => Err(stop),
    }
}
