// A pod that is let be: its phase, by its own lock.
ghost use Rattle.std.specs.Prelude.{◌≡◌, ℕ, true, IfOk, IfErr};
ghost use Rattle.dir_model.specs.declared.area.Area.TheVariants as area;
ghost use Rattle.dir_model.specs.declared.spot.Which.{Which};
ghost use Rattle.dir_trait.specs.DirCalls.{ExtendsBy};
ghost use Rattle.dir_trait.specs.Local.{IsActive};
ghost use Rattle.dir_trait.specs.Knowledge.{OnlyLooks};
ghost use Rattle.dir_trait.specs.Effects.{OnlyAsks, Given};
ghost use Rattle.pod_locks.specs.Requests.{looks_at, peeks_at};
ghost use Rattle.pod_locks.specs.Holding.{KeepsReady};
ghost use Rattle.pod_gc.specs.RemovalHolding.{MayRemove};
ghost use Rattle.pod_gc.specs.Causes.{GcCause};
ghost use Rattle.pod_gc.specs.Deeds.{DeedCause, SaysThere, DoesNothing, LeavesIfObserved};

use crate::gc_error::{GcError, look_fault};
use crate::line::{Deed, deed_of};
use dir_trait::{Area, Dir, Phase, PodId, Spot};
use phase_read::look;
use pod_locks::{Setback, probe};
use std::alloc::Global;

/// What is said of a pod whose own lock told that it has this phase: it still stands there, or it may have
/// gone before the lock was asked for.
pub(crate) fn kept<D: Dir>(
    alloc: Global,
    dir: &mut D,
    pod: PodId,
    area: Area,
    phase: Phase,
) -> Result<Deed, GcError>
    requires active { IsActive (D.shown dir.old).local }
    ensures worked { OnlyAsks D.observed (looks_at pod area) (D.shown dir.old) (D.shown dir.new) }
    ensures cause { IfErr result (λ e. GcCause D.observed e (D.shown dir.old) (D.shown dir.new)) }
    ensures never { IfErr result (λ e. e ≡ GcError.Stray → ⊥) }
    ensures said { IfOk result (λ deed. SaysThere D.observed pod area phase deed (D.shown dir.old) (D.shown dir.new)) }
    ensures peeks { D.observed ≡ true → ExtendsBy (peeks_at pod area) (D.shown dir.old) (D.shown dir.new) }
    ensures known { D.observed ≡ true → OnlyLooks (D.shown dir.old) (D.shown dir.new) }
{
    match look(alloc, dir, Spot::of_pod(pod, area)) {
        Ok(true) => Ok(Deed::Kept(phase)),
        Ok(false) => Ok(Deed::Left),
        Err(error) => Err(look_fault(error)),
    }
}

/// What is said of a pod in exited-garbage whose time there isn't over.
pub(crate) fn kept_exited<D: Dir>(alloc: Global, dir: &mut D, pod: PodId) -> Result<Deed, GcError>
    requires active { IsActive (D.shown dir.old).local }
    ensures worked { OnlyAsks D.observed (looks_at pod area.ExitedGarbage) (D.shown dir.old) (D.shown dir.new) }
    ensures cause { IfErr result (λ e. GcCause D.observed e (D.shown dir.old) (D.shown dir.new)) }
    ensures never { IfErr result (λ e. e ≡ GcError.Stray → ⊥) }
    ensures deed { IfOk result (λ deed. D.observed ≡ true → DeedCause pod area.ExitedGarbage deed (D.shown dir.old).process (D.shown dir.old).trace (D.shown dir.new).trace) }
    ensures rests { IfOk result (λ deed. DoesNothing deed) }
    ensures by_other_process { IfOk result (λ deed. (now : ℕ) → LeavesIfObserved D.observed (MayRemove now) pod area.ExitedGarbage deed (D.shown dir.old) (D.shown dir.new)) }
    ensures never_busy { IfOk result (λ deed. (which : Which) → deed ≡ Deed.Busy which → ⊥) }
    ensures ready { D.observed ≡ true → (now : ℕ) → Given (MayRemove now) (D.shown dir.old) (λ s. KeepsReady s (D.shown dir.new)) }
{
    match probe(alloc, dir, pod, Area::ExitedGarbage) {
        Ok(()) => kept(alloc, dir, pod, Area::ExitedGarbage, Phase::ExitedGarbage),
        Err(Setback::Busy(_)) => kept(alloc, dir, pod, Area::ExitedGarbage, Phase::Deleting),
        Err(stop) => deed_of(Err(stop), Deed::Left),
    }
}
