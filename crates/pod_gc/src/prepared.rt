// A prepared pod is put aside under its activation lock.
ghost use Rattle.std.specs.Prelude.{◌≡◌, true, false, IfOk, IfErr};
ghost use Rattle.dir_model.specs.declared.area.Area.TheVariants as area;
ghost use Rattle.dir_model.specs.declared.spot.Mode.TheVariants as mode;
ghost use Rattle.dir_model.specs.declared.spot.Which.TheVariants.{Own, Claim};
ghost use Rattle.dir_model.specs.declared.request.Request.TheVariants.{MoveFolder};
ghost use Rattle.dir_model.specs.declared.request.Reply.TheVariants.{Done};
ghost use Rattle.dir_trait.specs.DirCalls.{ExtendsBy, LockToldBetween};
ghost use Rattle.dir_trait.specs.Local.{IsActive};
ghost use Rattle.dir_trait.specs.Knowledge.{OnlyLooks};
ghost use Rattle.dir_trait.specs.Effects.{OnlyAsks, Given};
ghost use Rattle.phase_read.specs.Often.{ReadsAtMost};
ghost use Rattle.dir_model.specs.Spots.{pod_spot};
ghost use Rattle.pod_locks.specs.Requests.{looks_at};
ghost use Rattle.pod_gc.specs.RemovalRequests.{removes, puts_aside};
ghost use Rattle.pod_locks.specs.Holding.{KeepsReady};
ghost use Rattle.pod_gc.specs.RemovalHolding.{MayDiscard, UnderClaim};
ghost use Rattle.pod_locks.specs.Causes.{StepWasStopped, NeverStray, IsAbsentAt, FreeIfObserved, Did};
ghost use Rattle.pod_locks.specs.Taking.{TakesNothing};
ghost use Rattle.pod_gc.specs.RemovalCauses.{RemovalStopsAlone, StoppedAlone, BusyInPrepared, BusyByLooks};

use dir_trait::{Area, Dir, PodId, Spot, Which};
use phase_read::look;
use pod_locks::{Setback, look_setback, probe, put_aside, take};
use std::alloc::Global;

// Moves the pod to garbage, once its own lock was had shared: its maker has given it up, and who would run
// the pod asks for the activation lock first.
fn discard_under_claim<D: Dir>(
    alloc: Global,
    dir: &mut D,
    pod: PodId,
    now: u64,
) -> Result<(), Setback>
    requires active { IsActive (D.shown dir.old).local }
    ensures worked { OnlyAsks D.observed (removes pod now) (D.shown dir.old) (D.shown dir.new) }
    ensures reads { ReadsAtMost 0 D.observed pod (D.shown dir.old) (D.shown dir.new) }
    ensures stopped { IfErr result (λ e. StepWasStopped D.observed pod (IsAbsentAt pod area.Prepared) e (D.shown dir.old) (D.shown dir.new)) }
    ensures lawful { IfErr result (λ e. NeverStray D.observed e (D.shown dir.new)) }
    ensures by_other_process { IfErr result (λ e. D.observed ≡ true → Given (UnderClaim pod now) (D.shown dir.old)
        (λ s. BusyInPrepared pod e (D.shown dir.old) (D.shown dir.new))) }
    ensures done { IfOk result (λ done. D.observed ≡ true → Did (MoveFolder (pod_spot pod area.Prepared) (pod_spot pod area.Garbage)) Done
        (D.shown dir.old).process (D.shown dir.old).trace (D.shown dir.new).trace) }
    ensures aside { IfOk result (λ done. D.observed ≡ true → ExtendsBy (puts_aside pod area.Prepared area.Garbage) (D.shown dir.old) (D.shown dir.new)) }
    ensures free { IfOk result (λ done. D.observed ≡ true → LockToldBetween (D.shown dir.old) (D.shown dir.new) (pod_spot pod area.Prepared) false) }
    ensures looks { IfErr result (λ e. BusyByLooks D.observed pod area.Prepared e (D.shown dir.old) (D.shown dir.new)) }
    ensures takes_nothing { IfErr result (λ e. TakesNothing D.observed (D.shown dir.old) (D.shown dir.new)) }
    ensures ready { D.observed ≡ true → Given (UnderClaim pod now) (D.shown dir.old) (λ s. KeepsReady s (D.shown dir.new)) }
{
    probe(alloc, dir, pod, Area::Prepared)?;
    put_aside(alloc, dir, pod, Area::Prepared, Area::Garbage)
}

// The activation lock couldn't be opened: the pod's folder is gone from prepared, or it has no manifest.
fn without_claim<D: Dir>(alloc: Global, dir: &mut D, pod: PodId) -> Setback
    requires active { IsActive (D.shown dir.old).local }
    ensures worked { OnlyAsks D.observed (looks_at pod area.Prepared) (D.shown dir.old) (D.shown dir.new) }
    ensures stopped { RemovalStopsAlone D.observed pod result (D.shown dir.old) (D.shown dir.new) }
    ensures known { D.observed ≡ true → OnlyLooks (D.shown dir.old) (D.shown dir.new) }
{
    match look(alloc, dir, Spot::of_pod(pod, Area::Prepared)) {
        Ok(true) => Setback::NoManifest,
        Ok(false) => Setback::Missing,
        Err(error) => look_setback(error),
    }
}

/// Moves a prepared pod to garbage. Its activation lock is taken first and kept until the move, so that
/// nobody runs the pod meanwhile; under it its own lock was had shared. The removal is one that is asked
/// for. `Missing` where the pod doesn't stand in prepared; `NoManifest` where it stands there without the
/// file `pod`; `Busy` where another process holds the activation lock, or its own exclusively; `Stray`
/// where another folder has its place in garbage, which isn't so while every process keeps the local rules.
pub fn discard_prepared<D: Dir>(
    alloc: Global,
    dir: &mut D,
    pod: PodId,
    now: u64,
) -> Result<(), Setback>
    requires active { IsActive (D.shown dir.old).local }
    ensures worked { OnlyAsks D.observed (removes pod now) (D.shown dir.old) (D.shown dir.new) }
    ensures reads { ReadsAtMost 0 D.observed pod (D.shown dir.old) (D.shown dir.new) }
    ensures stopped { IfErr result (λ e. StoppedAlone D.observed pod e (D.shown dir.old) (D.shown dir.new)) }
    ensures lawful { IfErr result (λ e. NeverStray D.observed e (D.shown dir.new)) }
    ensures by_other_process { IfErr result (λ e. D.observed ≡ true → Given (MayDiscard pod now) (D.shown dir.old)
        (λ s. BusyInPrepared pod e (D.shown dir.old) (D.shown dir.new))) }
    ensures done { IfOk result (λ done. D.observed ≡ true → Did (MoveFolder (pod_spot pod area.Prepared) (pod_spot pod area.Garbage)) Done
        (D.shown dir.old).process (D.shown dir.old).trace (D.shown dir.new).trace) }
    ensures aside { IfOk result (λ done. D.observed ≡ true → ExtendsBy (puts_aside pod area.Prepared area.Garbage) (D.shown dir.old) (D.shown dir.new)) }
    ensures claimed { IfOk result (λ done. FreeIfObserved D.observed pod area.Prepared Claim mode.Exclusive (D.shown dir.old) (D.shown dir.new)) }
    ensures under_claim { IfErr result (λ e. e ≡ Setback.Busy Own → FreeIfObserved D.observed pod area.Prepared Claim mode.Exclusive (D.shown dir.old) (D.shown dir.new)) }
    ensures free { IfOk result (λ done. D.observed ≡ true → LockToldBetween (D.shown dir.old) (D.shown dir.new) (pod_spot pod area.Prepared) false) }
    ensures looks { IfErr result (λ e. BusyByLooks D.observed pod area.Prepared e (D.shown dir.old) (D.shown dir.new)) }
    ensures takes_nothing { IfErr result (λ e. TakesNothing D.observed (D.shown dir.old) (D.shown dir.new)) }
    ensures ready { D.observed ≡ true → Given (MayDiscard pod now) (D.shown dir.old) (λ s. KeepsReady s (D.shown dir.new)) }
{
    match take(alloc, dir, pod, Area::Prepared, Which::Claim) {
        Ok(claim) => {
            let result = discard_under_claim(alloc, dir, pod, now);
            dir.close(claim);
            result
        }
        Err(Setback::Missing) => Err(without_claim(alloc, dir, pod)),
        Err(stop) => Err(stop),
    }
}
