// One attempt at a pod: it is looked for, and taken where it waits in prepared.
ghost use Rattle.std.specs.Prelude.{◌≡◌, true, false, IfOk, IfErr};
ghost use Rattle.dir_model.specs.declared.area.Area.TheVariants as area;
ghost use Rattle.dir_model.specs.declared.area.Phase.TheVariants as phase;
ghost use Rattle.dir_model.specs.declared.spot.Which.{Which};
ghost use Rattle.dir_model.specs.declared.spot.Which.TheVariants as lock;
ghost use Rattle.dir_trait.specs.Local.{IsActive, IsUnopened, has_own_open};
ghost use Rattle.dir_trait.specs.Knowledge.{OnlyLooks, LookedInto};
ghost use Rattle.dir_trait.specs.Pods.{pod_text};
ghost use Rattle.phase_read.specs.Often.{ReadsAtMost};
ghost use Rattle.phase_read.specs.Read.{IsPhaseRead};
ghost use Rattle.phase_read.specs.declared.found.Found.TheVariants as found;
ghost use Rattle.pod_locks.specs.ClaimHolding.{MayClaim, and_locked};
ghost use Rattle.pod_locks.specs.Work.{WentClaiming, MovedNothing, TookBoth, WhereObservedKnew};
ghost use Rattle.pod_locks.specs.ClaimCauses.{is_prepared, ClaimCause, SetBack, BusyInTurn, HadBothAlone};
ghost use Rattle.pod_locks.specs.Claims.{HasPod};
ghost use Rattle.pod_locks.specs.Elsewhere.{MetOwner, MetOwnerThen};

use crate::claim_error::ClaimError;
use crate::claim_setback::{Setback, look_refusal};
use crate::locks::take_and_run;
use dir_trait::{Dir, Handle, Phase, PodId};
use phase_read::{Found, read_phase};
use std::alloc::Global;

// A pod in this phase waits to be run.
fn is_prepared(phase: Phase) -> bool
    ensures { result ≡ is_prepared phase }
{
    match phase {
        Phase::Prepared => true,
        _ => false,
    }
}

// Reads the pod's phase: only a prepared pod can be claimed.
fn find_prepared<D: Dir>(alloc: Global, dir: &mut D, pod: PodId) -> Result<(), ClaimError>
    requires active { IsActive (D.shown dir.old).local }
    requires alone { has_own_open (D.shown dir.old).local (pod_text pod.bytes) ≡ false }
    ensures went { WentClaiming D.observed 19 pod (D.shown dir.old).local (D.shown dir.old) (D.shown dir.new) }
    ensures reads { ReadsAtMost 1 D.observed pod (D.shown dir.old) (D.shown dir.new) }
    ensures moves_nothing { D.observed ≡ true → MovedNothing (D.shown dir.old).process (D.shown dir.old).trace (D.shown dir.new).trace }
    ensures found { IfOk result (λ done. D.observed ≡ true
        → IsPhaseRead (D.shown dir.old) (D.shown dir.new) pod (found.At phase.Prepared area.Prepared)) }
    ensures cause { IfErr result (λ e. ClaimCause D.observed pod e (D.shown dir.old) (D.shown dir.new)) }
    ensures owned_elsewhere { IfErr result (λ e. WhereObservedKnew D.observed MayClaim (D.shown dir.old)
        (λ s. MetOwner pod e (D.shown dir.old) (D.shown dir.new))) }
    ensures never_busy { IfErr result (λ e. (which : Which) → e ≡ ClaimError.Busy pod which → ⊥) }
    ensures known { D.observed ≡ true → OnlyLooks (D.shown dir.old) (D.shown dir.new) }
{
    match read_phase(alloc, dir, pod) {
        Ok(Found::At(phase, _)) => {
            if is_prepared(phase) {
                Ok(())
            } else {
                Err(ClaimError::WrongPhase(phase))
            }
        }
        Ok(Found::Gone) => Err(ClaimError::NoPod),
        Err(error) => Err(look_refusal(error)),
    }
}

/// Looks for the pod, and takes it where it waits in prepared. `Missing` where it was found there and
/// its folder was missing after that.
pub(crate) fn attempt<D: Dir>(alloc: Global, dir: &mut D, pod: PodId) -> Result<Handle, Setback>
    requires active { IsActive (D.shown dir.old).local }
    requires alone { has_own_open (D.shown dir.old).local (pod_text pod.bytes) ≡ false }
    ensures went { WentClaiming D.observed 28 pod (and_locked (D.shown dir.old).local pod lock.Own result) (D.shown dir.old) (D.shown dir.new) }
    ensures reads { ReadsAtMost 1 D.observed pod (D.shown dir.old) (D.shown dir.new) }
    ensures unopened { IfOk result (λ own. IsUnopened (D.shown dir.old).local own) }
    ensures order { IfOk result (λ own. D.observed ≡ true
        → TookBoth pod own (D.shown dir.old).process (D.shown dir.old).trace (D.shown dir.new).trace) }
    ensures alone { IfOk result (λ own. D.observed ≡ true → HadBothAlone pod (D.shown dir.old).process (D.shown dir.old).trace (D.shown dir.new).trace) }
    ensures set_back { IfErr result (λ e. SetBack D.observed pod e (D.shown dir.old) (D.shown dir.new)) }
    ensures by_other_process { IfErr result (λ e. WhereObservedKnew D.observed MayClaim (D.shown dir.old)
        (λ s. BusyInTurn pod e (D.shown dir.old) (D.shown dir.new))) }
    ensures owned_elsewhere { IfErr result (λ e. WhereObservedKnew D.observed MayClaim (D.shown dir.old)
        (λ s. MetOwnerThen pod e (D.shown dir.old) (D.shown dir.new))) }
    ensures held { IfOk result (λ own. WhereObservedKnew D.observed MayClaim (D.shown dir.old) (λ s. HasPod pod own s (D.shown dir.new))) }
    ensures left { IfErr result (λ e. WhereObservedKnew D.observed MayClaim (D.shown dir.old) (λ s. LookedInto s (D.shown dir.new))) }
{
    match find_prepared(alloc, dir, pod) {
        Ok(()) => take_and_run(alloc, dir, pod),
        Err(error) => Err(Setback::Refused(error)),
    }
}
