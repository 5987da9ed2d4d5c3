// A prepared pod is claimed.
ghost use Rattle.std.specs.Prelude.{◌≡◌, true, false, IfOk, IfErr, IsErrOf};
ghost use Rattle.dir_trait.specs.Local.{IsActive, has_own_open};
ghost use Rattle.dir_trait.specs.Knowledge.{LookedInto};
ghost use Rattle.dir_trait.specs.Pods.{pod_text};
ghost use Rattle.lifecycle.specs.Executions.{IsConforming};
ghost use Rattle.phase_read.specs.Often.{ReadsAtMost};
ghost use Rattle.pod_locks.specs.ClaimHolding.{MayClaim};
ghost use Rattle.pod_locks.specs.Work.{WentClaiming, MovedNothing, TookBoth, WhereObservedKnew};
ghost use Rattle.pod_locks.specs.ClaimCauses.{ClaimCause, HadBothAlone};
ghost use Rattle.pod_locks.specs.Claims.{and_owned, HasPod, ClaimRefusedByAnother, IsFreeThroughout, IsClaimFailure};
ghost use Rattle.pod_locks.specs.Elsewhere.{MetOwner};
ghost use Rattle.pod_locks.specs.Running.{IsOwned, RunsPod};

use crate::Owned;
use crate::attempt::attempt;
use crate::claim_error::ClaimError;
use crate::claim_setback::{Setback, last_refusal};
use dir_trait::{Area, Dir, Handle, PodId};
use std::alloc::Global;

// What a process owns that has moved the pod to run.
fn owned(pod: PodId, own: Handle) -> Owned
    ensures { result ≡ record { pod = pod; area = Area.Run; own = own } }
{
    let area = Area::Run;
    Owned { pod, area, own }
}

/// Claims a prepared pod: takes its activation lock and then its own lock, moves it from prepared to
/// run, and gives the activation lock up. The pod's phase is read at most twice, by at most 56 calls in
/// all. No handle of this process is open on the pod's own lock before; afterwards one is, which holds it
/// exclusively, or the call is refused and everything is open that was open before.
///
/// Refused in this order. `NoPod` and `WrongPhase` where the pod isn't prepared; one that is preparing,
/// running or deleting is another process's. `NoManifest` where its
/// folder stands in prepared without the file `pod`. `Busy` where another process holds the activation
/// lock, or its own lock. `Stray` where the pod was found in prepared twice, and both times its folder was
/// missing there after that, or where another folder has its place in run: never while every process keeps
/// the local rules. `DirFault` and `NoMemory` where the directory failed or memory ran out. A refused call
/// moves nothing.
pub fn claim<D: Dir>(alloc: Global, dir: &mut D, pod: PodId) -> Result<Owned, ClaimError>
    requires active { IsActive (D.shown dir.old).local }
    requires alone { has_own_open (D.shown dir.old).local (pod_text pod.bytes) ≡ false }
    ensures owned { IfOk result (λ owned. IsOwned pod (D.shown dir.old).local owned) }
    ensures went { WentClaiming D.observed 56 pod (and_owned (D.shown dir.old).local pod result) (D.shown dir.old) (D.shown dir.new) }
    ensures reads { ReadsAtMost 2 D.observed pod (D.shown dir.old) (D.shown dir.new) }
    ensures cause { IfErr result (λ e. ClaimCause D.observed pod e (D.shown dir.old) (D.shown dir.new)) }
    ensures by_other_process { IfErr result (λ e. WhereObservedKnew D.observed MayClaim (D.shown dir.old)
        (λ s. ClaimRefusedByAnother pod e (D.shown dir.old) (D.shown dir.new))) }
    ensures owned_elsewhere { IfErr result (λ e. WhereObservedKnew D.observed MayClaim (D.shown dir.old)
        (λ s. MetOwner pod e (D.shown dir.old) (D.shown dir.new))) }
    ensures moved { IfOk result (λ owned. D.observed ≡ true
        → TookBoth pod owned.own (D.shown dir.old).process (D.shown dir.old).trace (D.shown dir.new).trace) }
    ensures alone { IfOk result (λ owned. D.observed ≡ true → HadBothAlone pod (D.shown dir.old).process (D.shown dir.old).trace (D.shown dir.new).trace) }
    ensures moves_nothing { IfErr result (λ e. D.observed ≡ true → MovedNothing (D.shown dir.old).process (D.shown dir.old).trace (D.shown dir.new).trace) }
    ensures runs { IfOk result (λ owned. WhereObservedKnew D.observed MayClaim (D.shown dir.old) (λ s. RunsPod pod (D.shown dir.new))) }
    ensures held { IfOk result (λ owned. WhereObservedKnew D.observed MayClaim (D.shown dir.old) (λ s. HasPod pod owned.own s (D.shown dir.new))) }
    ensures left { IfErr result (λ e. WhereObservedKnew D.observed MayClaim (D.shown dir.old) (λ s. LookedInto s (D.shown dir.new))) }
    ensures complete { IfErr result (λ e. WhereObservedKnew D.observed MayClaim (D.shown dir.old)
        (λ s. IsConforming (D.shown dir.new).trace → IsFreeThroughout pod (D.shown dir.old) (D.shown dir.new) → IsClaimFailure e)) }
    ensures lawful { IsErrOf result ClaimError.Stray → D.observed ≡ true → IsConforming (D.shown dir.new).trace → ⊥ }
{
    match attempt(alloc, dir, pod) {
        Ok(own) => Ok(owned(pod, own)),
        Err(Setback::Refused(error)) => Err(error),
        Err(Setback::Missing) => match attempt(alloc, dir, pod) {
            Ok(own) => Ok(owned(pod, own)),
            Err(stop) => Err(last_refusal(stop)),
        },
    }
}
