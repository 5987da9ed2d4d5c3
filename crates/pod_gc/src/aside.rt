// A dead pod is put aside: from prepare to garbage, and from run, with a mark, to exited-garbage.
ghost use Rattle.std.specs.Prelude.{◌≡◌, true, false, IfOk, IfErr};
ghost use Rattle.dir_model.specs.declared.area.Area.TheVariants as area;
ghost use Rattle.dir_model.specs.declared.spot.Mode.TheVariants as mode;
ghost use Rattle.dir_model.specs.declared.spot.Which.{Which};
ghost use Rattle.dir_model.specs.declared.spot.Which.TheVariants.{Own};
ghost use Rattle.dir_model.specs.declared.request.Request.TheVariants.{MoveFolder};
ghost use Rattle.dir_model.specs.declared.request.Reply.TheVariants.{Done};
ghost use Rattle.dir_trait.specs.DirCalls.{ExtendsBy, LockToldBetween};
ghost use Rattle.dir_trait.specs.Local.{IsActive};
ghost use Rattle.dir_trait.specs.Effects.{OnlyAsks, Given};
ghost use Rattle.phase_read.specs.Often.{ReadsAtMost};
ghost use Rattle.dir_model.specs.Spots.{pod_spot};
ghost use Rattle.pod_gc.specs.RemovalRequests.{may_lie_dead, removes, marks_at, puts_aside};
ghost use Rattle.pod_gc.specs.Requests.{goes_to};
ghost use Rattle.pod_locks.specs.Holding.{KeepsReady};
ghost use Rattle.pod_gc.specs.RemovalHolding.{MayRemove, MayMark, Marked};
ghost use Rattle.pod_locks.specs.Causes.{StepWasStopped, NeverStray, IsAbsentAt, LockBusyElsewhere, Did};
ghost use Rattle.pod_locks.specs.Taking.{TakesNothing};
ghost use Rattle.pod_gc.specs.RemovalCauses.{BusyByPeeks, IsMarkedBetween, MarkedFirst};

use dir_trait::{Area, Dir, DirError, PodId, Spot};
use marks::mark_text;
use pod_locks::{Setback, probe, put_aside, set_back};
use std::alloc::Global;

/// The garbage place where a pod goes from an area.
pub(crate) fn goes_to(area: Area) -> Area
    ensures { result ≡ goes_to area }
{
    match area {
        Area::Run => Area::ExitedGarbage,
        _ => Area::Garbage,
    }
}

// Marks a pod in run with the moment, whence its time in exited-garbage counts: that the mark is there
// already is as good. `Missing` where the pod doesn't stand in run.
fn mark<D: Dir>(alloc: Global, dir: &mut D, pod: PodId, now: u64) -> Result<(), Setback>
    requires active { IsActive (D.shown dir.old).local }
    ensures worked { OnlyAsks D.observed (marks_at pod now) (D.shown dir.old) (D.shown dir.new) }
    ensures stopped { IfErr result (λ e. StepWasStopped D.observed pod (IsAbsentAt pod area.Run) e (D.shown dir.old) (D.shown dir.new)) }
    ensures never { IfErr result (λ e. e ≡ Setback.Stray → ⊥) }
    ensures never_busy { IfErr result (λ e. (which : Which) → e ≡ Setback.Busy which → ⊥) }
    ensures marked { IfOk result (λ done. D.observed ≡ true → Given (MayMark pod now) (D.shown dir.old) (λ s. Marked pod s (D.shown dir.new))) }
    ensures noted { IfOk result (λ done. D.observed ≡ true → IsMarkedBetween pod now (D.shown dir.old) (D.shown dir.new)) }
    ensures left { D.observed ≡ true → Given (MayMark pod now) (D.shown dir.old) (λ s. KeepsReady s (D.shown dir.new)) }
{
    let name = match mark_text(alloc, "marked-", now) {
        Ok(name) => name,
        Err(_) => return Err(Setback::NoMemory),
    };
    match dir.make_file_in(alloc, Spot::of_pod(pod, Area::Run), name.as_str()) {
        Ok(()) => Ok(()),
        Err(DirError::Exists) => Ok(()),
        Err(error) => Err(set_back(error)),
    }
}

// Marks a pod where the area is run: what died in prepare has no time to wait, and nothing is asked for.
fn mark_exited<D: Dir>(
    alloc: Global,
    dir: &mut D,
    pod: PodId,
    area: Area,
    now: u64,
) -> Result<(), Setback>
    requires active { IsActive (D.shown dir.old).local }
    ensures worked { OnlyAsks D.observed (marks_at pod now) (D.shown dir.old) (D.shown dir.new) }
    ensures elsewhere { (area ≡ Area.Run → ⊥) → D.shown dir.new ≡ D.shown dir.old }
    ensures only { IfErr result (λ e. area ≡ Area.Run) }
    ensures stopped { IfErr result (λ e. StepWasStopped D.observed pod (IsAbsentAt pod area) e (D.shown dir.old) (D.shown dir.new)) }
    ensures never { IfErr result (λ e. e ≡ Setback.Stray → ⊥) }
    ensures never_busy { IfErr result (λ e. (which : Which) → e ≡ Setback.Busy which → ⊥) }
    ensures marked { area ≡ Area.Run → IfOk result (λ done. D.observed ≡ true → Given (MayMark pod now) (D.shown dir.old) (λ s. Marked pod s (D.shown dir.new))) }
    ensures noted { area ≡ Area.Run → IfOk result (λ done. D.observed ≡ true → IsMarkedBetween pod now (D.shown dir.old) (D.shown dir.new)) }
    ensures left { D.observed ≡ true → Given (MayMark pod now) (D.shown dir.old) (λ s. KeepsReady s (D.shown dir.new)) }
{
    match area {
        Area::Run => mark(alloc, dir, pod, now),
        _ => Ok(()),
    }
}

/// Moves a dead pod to the garbage place of its area, once its own lock was had shared there: an aborted
/// prepare to garbage, and an exited pod, which is marked with the moment first, to exited-garbage.
/// `Missing` where it doesn't stand in the area; `Busy` where another process holds its own lock
/// exclusively; `Stray` where another folder has its place in garbage or exited-garbage, which isn't so
/// while every process keeps the local rules; `DirFault` where the directory failed; `NoMemory`.
pub fn put_dead_aside<D: Dir>(
    alloc: Global,
    dir: &mut D,
    pod: PodId,
    area: Area,
    now: u64,
) -> Result<(), Setback>
    requires active { IsActive (D.shown dir.old).local }
    requires dead { may_lie_dead area ≡ true }
    ensures worked { OnlyAsks D.observed (removes pod now) (D.shown dir.old) (D.shown dir.new) }
    ensures reads { ReadsAtMost 0 D.observed pod (D.shown dir.old) (D.shown dir.new) }
    ensures stopped { IfErr result (λ e. StepWasStopped D.observed pod (IsAbsentAt pod area) e (D.shown dir.old) (D.shown dir.new)) }
    ensures lawful { IfErr result (λ e. NeverStray D.observed e (D.shown dir.new)) }
    ensures named { IfErr result (λ e. (which : Which) → e ≡ Setback.Busy which → which ≡ Own) }
    ensures by_other_process { IfErr result (λ e. D.observed ≡ true → Given (MayRemove now) (D.shown dir.old)
        (λ s. LockBusyElsewhere pod area mode.Shared e (D.shown dir.old) (D.shown dir.new))) }
    ensures owned { IfErr result (λ e. (which : Which) → e ≡ Setback.Busy which → D.observed ≡ true
        → LockToldBetween (D.shown dir.old) (D.shown dir.new) (pod_spot pod area) true) }
    ensures done { IfOk result (λ done. D.observed ≡ true → Did (MoveFolder (pod_spot pod area) (pod_spot pod (goes_to area))) Done
        (D.shown dir.old).process (D.shown dir.old).trace (D.shown dir.new).trace) }
    ensures aside { IfOk result (λ done. D.observed ≡ true → ExtendsBy (puts_aside pod area (goes_to area)) (D.shown dir.old) (D.shown dir.new)) }
    ensures free { IfOk result (λ done. D.observed ≡ true → LockToldBetween (D.shown dir.old) (D.shown dir.new) (pod_spot pod area) false) }
    ensures noted { IfOk result (λ done. area ≡ Area.Run → D.observed ≡ true → MarkedFirst pod now (D.shown dir.old).process (D.shown dir.old).trace (D.shown dir.new).trace) }
    ensures peeks { IfErr result (λ e. BusyByPeeks D.observed pod area e (D.shown dir.old) (D.shown dir.new)) }
    ensures takes_nothing { IfErr result (λ e. TakesNothing D.observed (D.shown dir.old) (D.shown dir.new)) }
    ensures ready { D.observed ≡ true → Given (MayRemove now) (D.shown dir.old) (λ s. KeepsReady s (D.shown dir.new)) }
{
    probe(alloc, dir, pod, area)?;
    mark_exited(alloc, dir, pod, area, now)?;
    put_aside(alloc, dir, pod, area, goes_to(area))
}
