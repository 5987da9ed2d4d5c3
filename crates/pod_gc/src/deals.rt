// What is done with one listed pod, by the area of the pass.
ghost use Rattle.std.specs.Prelude.{◌≡◌, ℕ, true, Some, IfOk, IfErr};
ghost use Rattle.dir_model.specs.declared.spot.Which.{Which};
ghost use Rattle.dir_model.specs.declared.area.Phase.{Phase};
ghost use Rattle.pod_locks.specs.Requests.{moves_pod};
ghost use Rattle.pod_gc.specs.Sweeping.{HoldsEmbryo, MaySweepPods, MayPassPods, Ripens};
ghost use Rattle.dir_model.specs.declared.area.Area.TheVariants as area;
ghost use Rattle.dir_model.specs.Areas.{is_stage};
ghost use Rattle.dir_trait.specs.Local.{IsActive};
ghost use Rattle.dir_trait.specs.Effects.{OnlyAsks, Given};
ghost use Rattle.pod_locks.specs.Holding.{KeepsReady};
ghost use Rattle.pod_gc.specs.RemovalRequests.{is_garbage_place, may_lie_dead, removes};
ghost use Rattle.pod_gc.specs.RemovalHolding.{MayRemove};
ghost use Rattle.pod_gc.specs.Requests.{deals_with_pod, owned_phase};
ghost use Rattle.pod_gc.specs.Causes.{GcCause, GcNeverStray, GcStrayByApp};
ghost use Rattle.pod_gc.specs.Ages.{is_young, is_ripe};
ghost use Rattle.pod_gc.specs.Deeds.{DeedCause, refused_lock, LeavesIfObserved, MarksFirst, LetBe, WaitsOr, RestsBy, WaitsBy, RestedByAge, WaitedByAge, Dealt};

use crate::ages::{Times, is_ripe, is_young, marked_at};
use crate::aside::goes_to;
use crate::gc_error::GcError;
use crate::kept::{kept, kept_exited};
use crate::line::{Deed, deed_of};
use crate::{delete_at, discard_prepared, put_dead_aside};
use dir_trait::{Area, Dir, Phase, PodId};
use pod_locks::{Setback, put_aside};
use std::alloc::Global;

// An embryo goes to garbage: the lock of embryo is held, so nobody makes it.
fn deal_embryo<D: Dir>(alloc: Global, dir: &mut D, pod: PodId) -> Result<Deed, GcError>
    requires active { IsActive (D.shown dir.old).local }
    ensures worked { OnlyAsks D.observed (moves_pod pod area.Embryo area.Garbage) (D.shown dir.old) (D.shown dir.new) }
    ensures cause { IfErr result (λ e. GcCause D.observed e (D.shown dir.old) (D.shown dir.new)) }
    ensures lawful { IfErr result (λ e. GcNeverStray D.observed e (D.shown dir.new)) }
    ensures deed { IfOk result (λ deed. D.observed ≡ true → DeedCause pod area.Embryo deed (D.shown dir.old).process (D.shown dir.old).trace (D.shown dir.new).trace) }
    ensures never_busy { IfOk result (λ deed. (which : Which) → refused_lock deed ≡ Some which → ⊥) }
    ensures left_untouched { IfOk result (λ deed. LetBe D.observed pod area.Embryo deed (D.shown dir.old) (D.shown dir.new)) }
    ensures ready { D.observed ≡ true → (now : ℕ) → Given (HoldsEmbryo now) (D.shown dir.old) (λ s. KeepsReady s (D.shown dir.new)) }
{
    let answer = put_aside(alloc, dir, pod, Area::Embryo, Area::Garbage);
    deed_of(answer, Deed::Moved(Area::Garbage))
}

// The phase of a pod whose own lock is held, where it may lie dead once nobody holds that.
fn owned_phase(area: Area) -> Phase
    ensures { result ≡ owned_phase area }
{
    match area {
        Area::Run => Phase::Running,
        _ => Phase::Preparing,
    }
}

// An aborted prepare goes to garbage, and an exited pod is marked and goes to exited-garbage. Whose own
// lock is held is still being prepared, or still runs.
fn deal_dead<D: Dir>(
    alloc: Global,
    dir: &mut D,
    pod: PodId,
    area: Area,
    now: u64,
) -> Result<Deed, GcError>
    requires active { IsActive (D.shown dir.old).local }
    requires dead { may_lie_dead area ≡ true }
    ensures worked { OnlyAsks D.observed (deals_with_pod pod now area) (D.shown dir.old) (D.shown dir.new) }
    ensures cause { IfErr result (λ e. GcCause D.observed e (D.shown dir.old) (D.shown dir.new)) }
    ensures lawful { IfErr result (λ e. GcNeverStray D.observed e (D.shown dir.new)) }
    ensures deed { IfOk result (λ deed. D.observed ≡ true → DeedCause pod area deed (D.shown dir.old).process (D.shown dir.old).trace (D.shown dir.new).trace) }
    ensures by_other_process { IfOk result (λ deed. LeavesIfObserved D.observed (MayRemove now) pod area deed (D.shown dir.old) (D.shown dir.new)) }
    ensures marked { IfOk result (λ deed. area ≡ Area.Run → D.observed ≡ true → MarksFirst pod now deed (D.shown dir.old) (D.shown dir.new)) }
    ensures left_untouched { IfOk result (λ deed. LetBe D.observed pod area deed (D.shown dir.old) (D.shown dir.new)) }
    ensures ready { D.observed ≡ true → Given (MayRemove now) (D.shown dir.old) (λ s. KeepsReady s (D.shown dir.new)) }
{
    let moved = Deed::Moved(goes_to(area));
    match put_dead_aside(alloc, dir, pod, area, now) {
        Ok(()) => Ok(moved),
        Err(Setback::Busy(_)) => kept(alloc, dir, pod, area, owned_phase(area)),
        Err(stop) => deed_of(Err(stop), moved),
    }
}

// A prepared pod goes to garbage where its time is over.
fn deal_waiting<D: Dir>(
    alloc: Global,
    dir: &mut D,
    pod: PodId,
    created: Option<u64>,
    times: Times,
) -> Result<Deed, GcError>
    requires active { IsActive (D.shown dir.old).local }
    ensures worked { OnlyAsks D.observed (removes pod times.now) (D.shown dir.old) (D.shown dir.new) }
    ensures cause { IfErr result (λ e. GcCause D.observed e (D.shown dir.old) (D.shown dir.new)) }
    ensures lawful { IfErr result (λ e. GcNeverStray D.observed e (D.shown dir.new)) }
    ensures deed { IfOk result (λ deed. WaitsOr D.observed pod deed (D.shown dir.old) (D.shown dir.new)) }
    ensures aged { IfOk result (λ deed. WaitsBy (is_ripe times.now times.expire created) deed) }
    ensures by_other_process { IfOk result (λ deed. LeavesIfObserved D.observed (Ripens pod created times.now times.expire) pod area.Prepared deed (D.shown dir.old) (D.shown dir.new)) }
    ensures left_untouched { IfOk result (λ deed. LetBe D.observed pod area.Prepared deed (D.shown dir.old) (D.shown dir.new)) }
    ensures ready { D.observed ≡ true → Given (Ripens pod created times.now times.expire) (D.shown dir.old) (λ s. KeepsReady s (D.shown dir.new)) }
{
    if is_ripe(times.now, times.expire, created) {
        let answer = discard_prepared(alloc, dir, pod, times.now);
        deed_of(answer, Deed::Moved(Area::Garbage))
    } else {
        Ok(Deed::Kept(Phase::Prepared))
    }
}

// A prepared pod goes to garbage once it has waited so long since it was created.
fn deal_prepared<D: Dir>(
    alloc: Global,
    dir: &mut D,
    pod: PodId,
    times: Times,
) -> Result<Deed, GcError>
    requires active { IsActive (D.shown dir.old).local }
    ensures worked { OnlyAsks D.observed (deals_with_pod pod times.now area.Prepared) (D.shown dir.old) (D.shown dir.new) }
    ensures cause { IfErr result (λ e. GcCause D.observed e (D.shown dir.old) (D.shown dir.new)) }
    ensures lawful { IfErr result (λ e. GcNeverStray D.observed e (D.shown dir.new)) }
    ensures deed { IfOk result (λ deed. D.observed ≡ true → DeedCause pod area.Prepared deed (D.shown dir.old).process (D.shown dir.old).trace (D.shown dir.new).trace) }
    ensures aged { IfOk result (λ deed. D.observed ≡ true → WaitedByAge times pod deed (D.shown dir.old).process (D.shown dir.old).trace (D.shown dir.new).trace) }
    ensures by_other_process { IfOk result (λ deed. LeavesIfObserved D.observed (MaySweepPods times.now times.expire) pod area.Prepared deed (D.shown dir.old) (D.shown dir.new)) }
    ensures left_untouched { IfOk result (λ deed. LetBe D.observed pod area.Prepared deed (D.shown dir.old) (D.shown dir.new)) }
    ensures ready { D.observed ≡ true → Given (MaySweepPods times.now times.expire) (D.shown dir.old) (λ s. KeepsReady s (D.shown dir.new)) }
{
    match marked_at(alloc, dir, pod, Area::Prepared, b"created-")? {
        Some(created) => deal_waiting(alloc, dir, pod, created, times),
        None => Ok(Deed::Left),
    }
}

// An exited pod in exited-garbage is let be while it is young, and deleted after that.
fn deal_rested<D: Dir>(
    alloc: Global,
    dir: &mut D,
    pod: PodId,
    marked: Option<u64>,
    times: Times,
) -> Result<Deed, GcError>
    requires active { IsActive (D.shown dir.old).local }
    ensures worked { OnlyAsks D.observed (deals_with_pod pod times.now area.ExitedGarbage) (D.shown dir.old) (D.shown dir.new) }
    ensures cause { IfErr result (λ e. GcCause D.observed e (D.shown dir.old) (D.shown dir.new)) }
    ensures lawful { IfErr result (λ e. GcStrayByApp D.observed e (MayRemove times.now) (D.shown dir.old) (D.shown dir.new)) }
    ensures deed { IfOk result (λ deed. D.observed ≡ true → DeedCause pod area.ExitedGarbage deed (D.shown dir.old).process (D.shown dir.old).trace (D.shown dir.new).trace) }
    ensures aged { IfOk result (λ deed. RestsBy (is_young times.now times.grace marked) deed) }
    ensures by_other_process { IfOk result (λ deed. LeavesIfObserved D.observed (MayRemove times.now) pod area.ExitedGarbage deed (D.shown dir.old) (D.shown dir.new)) }
    ensures left_untouched { IfOk result (λ deed. LetBe D.observed pod area.ExitedGarbage deed (D.shown dir.old) (D.shown dir.new)) }
    ensures ready { D.observed ≡ true → Given (MayRemove times.now) (D.shown dir.old) (λ s. KeepsReady s (D.shown dir.new)) }
{
    if is_young(times.now, times.grace, marked) {
        kept_exited(alloc, dir, pod)
    } else {
        deal_garbage(alloc, dir, pod, Area::ExitedGarbage, times.now)
    }
}

// An exited pod is deleted once its grace is over since its latest mark, or where it has none. The marks
// are listed before its lock is asked for.
fn deal_exited_garbage<D: Dir>(
    alloc: Global,
    dir: &mut D,
    pod: PodId,
    times: Times,
) -> Result<Deed, GcError>
    requires active { IsActive (D.shown dir.old).local }
    ensures worked { OnlyAsks D.observed (deals_with_pod pod times.now area.ExitedGarbage) (D.shown dir.old) (D.shown dir.new) }
    ensures cause { IfErr result (λ e. GcCause D.observed e (D.shown dir.old) (D.shown dir.new)) }
    ensures lawful { IfErr result (λ e. GcStrayByApp D.observed e (MayRemove times.now) (D.shown dir.old) (D.shown dir.new)) }
    ensures deed { IfOk result (λ deed. D.observed ≡ true → DeedCause pod area.ExitedGarbage deed (D.shown dir.old).process (D.shown dir.old).trace (D.shown dir.new).trace) }
    ensures aged { IfOk result (λ deed. D.observed ≡ true → RestedByAge times pod deed (D.shown dir.old).process (D.shown dir.old).trace (D.shown dir.new).trace) }
    ensures by_other_process { IfOk result (λ deed. LeavesIfObserved D.observed (MayRemove times.now) pod area.ExitedGarbage deed (D.shown dir.old) (D.shown dir.new)) }
    ensures left_untouched { IfOk result (λ deed. LetBe D.observed pod area.ExitedGarbage deed (D.shown dir.old) (D.shown dir.new)) }
    ensures ready { D.observed ≡ true → Given (MayRemove times.now) (D.shown dir.old) (λ s. KeepsReady s (D.shown dir.new)) }
{
    match marked_at(alloc, dir, pod, Area::ExitedGarbage, b"marked-")? {
        Some(marked) => deal_rested(alloc, dir, pod, marked, times),
        None => Ok(Deed::Left),
    }
}

// A pod in a garbage place is deleted.
fn deal_garbage<D: Dir>(
    alloc: Global,
    dir: &mut D,
    pod: PodId,
    area: Area,
    now: u64,
) -> Result<Deed, GcError>
    requires active { IsActive (D.shown dir.old).local }
    requires garbage { is_garbage_place area ≡ true }
    ensures worked { OnlyAsks D.observed (deals_with_pod pod now area) (D.shown dir.old) (D.shown dir.new) }
    ensures cause { IfErr result (λ e. GcCause D.observed e (D.shown dir.old) (D.shown dir.new)) }
    ensures lawful { IfErr result (λ e. GcStrayByApp D.observed e (MayRemove now) (D.shown dir.old) (D.shown dir.new)) }
    ensures deed { IfOk result (λ deed. D.observed ≡ true → DeedCause pod area deed (D.shown dir.old).process (D.shown dir.old).trace (D.shown dir.new).trace) }
    ensures ends { IfOk result (λ deed. (phase : Phase) → deed ≡ Deed.Kept phase → ⊥) }
    ensures by_other_process { IfOk result (λ deed. LeavesIfObserved D.observed (MayRemove now) pod area deed (D.shown dir.old) (D.shown dir.new)) }
    ensures left_untouched { IfOk result (λ deed. LetBe D.observed pod area deed (D.shown dir.old) (D.shown dir.new)) }
    ensures ready { D.observed ≡ true → Given (MayRemove now) (D.shown dir.old) (λ s. KeepsReady s (D.shown dir.new)) }
{
    let answer = delete_at(alloc, dir, pod, area, now);
    deed_of(answer, Deed::Deleted)
}

/// Deals with a pod that the pass's listing of the area showed.
pub(crate) fn deal<D: Dir>(
    alloc: Global,
    dir: &mut D,
    area: Area,
    pod: PodId,
    times: Times,
) -> Result<Deed, GcError>
    requires active { IsActive (D.shown dir.old).local }
    requires stage { is_stage area ≡ true }
    ensures worked { OnlyAsks D.observed (deals_with_pod pod times.now area) (D.shown dir.old) (D.shown dir.new) }
    ensures cause { IfErr result (λ e. GcCause D.observed e (D.shown dir.old) (D.shown dir.new)) }
    ensures lawful { IfErr result (λ e. GcStrayByApp D.observed e (MayPassPods area times.now times.expire) (D.shown dir.old) (D.shown dir.new)) }
    ensures dealt { IfOk result (λ deed. D.observed ≡ true → Dealt times pod area deed (D.shown dir.old).process (D.shown dir.old).trace (D.shown dir.new).trace) }
    ensures by_other_process { IfOk result (λ deed. LeavesIfObserved D.observed (MayPassPods area times.now times.expire) pod area deed (D.shown dir.old) (D.shown dir.new)) }
    ensures ready { D.observed ≡ true → Given (MayPassPods area times.now times.expire) (D.shown dir.old) (λ s. KeepsReady s (D.shown dir.new)) }
{
    match area {
        Area::Embryo => deal_embryo(alloc, dir, pod),
        Area::Prepare | Area::Run => deal_dead(alloc, dir, pod, area, times.now),
        Area::Prepared => deal_prepared(alloc, dir, pod, times),
        Area::ExitedGarbage => deal_exited_garbage(alloc, dir, pod, times),
        Area::Garbage => deal_garbage(alloc, dir, pod, Area::Garbage, times.now),
        _ => unreachable!(),
    }
}
