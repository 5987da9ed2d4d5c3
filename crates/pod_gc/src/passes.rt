// One pass: the pods that a listing of its area shows, in byte order.
ghost use Rattle.std.specs.Prelude.{◌≡◌, ◌++◌, ◌∷◌, [], true, IfOk, IfErr};
ghost use Rattle.dir_model.specs.Areas.{is_stage};
ghost use Rattle.dir_trait.specs.Local.{IsActive};
ghost use Rattle.dir_trait.specs.Effects.{OnlyAsks, Given};
ghost use Rattle.pod_locks.specs.Holding.{KeepsReady};
ghost use Rattle.pod_gc.specs.Requests.{sweeps};
ghost use Rattle.pod_gc.specs.Causes.{GcCause, GcStrayByApp};
ghost use Rattle.pod_gc.specs.Sweeping.{MayPassPods, MaySweepAll};
ghost use Rattle.pod_gc.specs.Told.{deals_with_pods, AddsTold, AddsShown, AddsPassed};
ghost use Rattle.pod_gc.specs.Ended.{EndsAtPod, EndsAmongBetween, EndsListingBetween, EndsPassBetween};

use crate::ages::Times;
use crate::deals::deal;
use crate::gc_error::{GcError, listing_fault, lock_fault};
use crate::line::{Deed, GcLine};
use dir_files::{LockError, lock_area, names_of, unlock_area};
use dir_trait::{Area, Dir, Mode, Name, PodId};
use std::alloc::Global;

fn push(lines: &mut Vec<GcLine>, line: GcLine) -> Result<(), GcError>
    ensures items { IfOk result (λ done. lines.new.items ≡ lines.old.items ++ line ∷ []) }
    ensures memory { IfErr result (λ e. e ≡ GcError.NoMemory) }
{
    match lines.push(line) {
        Ok(()) => Ok(()),
        Err(_) => Err(GcError::NoMemory),
    }
}

// Deals with a folder that was listed, and says so. A folder whose name isn't a uuid is passed over.
fn deal_next<D: Dir>(
    alloc: Global,
    dir: &mut D,
    place: Area,
    name: &Name,
    times: Times,
    lines: &mut Vec<GcLine>,
) -> Result<(), GcError>
    requires active { IsActive (D.shown dir.old).local }
    requires stage { is_stage place ≡ true }
    ensures worked { OnlyAsks D.observed (deals_with_pods times.now place (name.now ∷ [])) (D.shown dir.old) (D.shown dir.new) }
    ensures cause { IfErr result (λ e. GcCause D.observed e (D.shown dir.old) (D.shown dir.new)) }
    ensures lawful { IfErr result (λ e. GcStrayByApp D.observed e (MayPassPods place times.now times.expire) (D.shown dir.old) (D.shown dir.new)) }
    ensures answer_holds { IfOk result (λ done. D.observed ≡ true → AddsTold times place (name.now ∷ []) (D.shown dir.old) (D.shown dir.new) lines.old.items lines.new.items) }
    ensures ended { IfErr result (λ e. D.observed ≡ true → EndsAtPod times.now place name.now (D.shown dir.old).process (D.shown dir.old).trace (D.shown dir.new).trace) }
    ensures ready { D.observed ≡ true → Given (MayPassPods place times.now times.expire) (D.shown dir.old) (λ s. KeepsReady s (D.shown dir.new)) }
{
    match PodId::parse(name.as_str()) {
        Some(id) => {
            let deed = deal(alloc, dir, place, id, times)?;
            let pod = Some(id);
            push(lines, GcLine { place, pod, deed })
        }
        None => Ok(()),
    }
}

fn deal_each<D: Dir>(
    alloc: Global,
    dir: &mut D,
    place: Area,
    names: &[Name],
    times: Times,
    lines: &mut Vec<GcLine>,
) -> Result<(), GcError>
    requires active { IsActive (D.shown dir.old).local }
    requires stage { is_stage place ≡ true }
    ensures worked { OnlyAsks D.observed (deals_with_pods times.now place names.now) (D.shown dir.old) (D.shown dir.new) }
    ensures cause { IfErr result (λ e. GcCause D.observed e (D.shown dir.old) (D.shown dir.new)) }
    ensures lawful { IfErr result (λ e. GcStrayByApp D.observed e (MayPassPods place times.now times.expire) (D.shown dir.old) (D.shown dir.new)) }
    ensures answer_holds { IfOk result (λ done. D.observed ≡ true → AddsTold times place names.now (D.shown dir.old) (D.shown dir.new) lines.old.items lines.new.items) }
    ensures ended { IfErr result (λ e. D.observed ≡ true → EndsAmongBetween times place names.now (D.shown dir.old) (D.shown dir.new)) }
    ensures ready { D.observed ≡ true → Given (MayPassPods place times.now times.expire) (D.shown dir.old) (λ s. KeepsReady s (D.shown dir.new)) }
{
    'names: for name in names {
        deal_next(alloc, dir, place, name, times, lines)?;
    }
    Ok(())
}

// Lists the area, and deals with each pod.
fn pass_listed<D: Dir>(
    alloc: Global,
    dir: &mut D,
    place: Area,
    times: Times,
    lines: &mut Vec<GcLine>,
) -> Result<(), GcError>
    requires active { IsActive (D.shown dir.old).local }
    requires stage { is_stage place ≡ true }
    ensures worked { OnlyAsks D.observed (sweeps times.now) (D.shown dir.old) (D.shown dir.new) }
    ensures cause { IfErr result (λ e. GcCause D.observed e (D.shown dir.old) (D.shown dir.new)) }
    ensures lawful { IfErr result (λ e. GcStrayByApp D.observed e (MayPassPods place times.now times.expire) (D.shown dir.old) (D.shown dir.new)) }
    ensures answer_holds { IfOk result (λ done. D.observed ≡ true → AddsShown times place (D.shown dir.old) (D.shown dir.new) lines.old.items lines.new.items) }
    ensures ended { IfErr result (λ e. D.observed ≡ true → EndsListingBetween times place (D.shown dir.old) (D.shown dir.new)) }
    ensures ready { D.observed ≡ true → Given (MayPassPods place times.now times.expire) (D.shown dir.old) (λ s. KeepsReady s (D.shown dir.new)) }
{
    match names_of(alloc, dir, place) {
        Ok(names) => deal_each(alloc, dir, place, names.as_slice(), times, lines),
        Err(error) => Err(listing_fault(error)),
    }
}

// The pass over embryo, under that area's lock: who makes a pod holds it shared.
fn pass_embryo<D: Dir>(
    alloc: Global,
    dir: &mut D,
    times: Times,
    lines: &mut Vec<GcLine>,
) -> Result<(), GcError>
    requires active { IsActive (D.shown dir.old).local }
    ensures worked { OnlyAsks D.observed (sweeps times.now) (D.shown dir.old) (D.shown dir.new) }
    ensures cause { IfErr result (λ e. GcCause D.observed e (D.shown dir.old) (D.shown dir.new)) }
    ensures lawful { IfErr result (λ e. GcStrayByApp D.observed e (MaySweepAll times.now times.expire) (D.shown dir.old) (D.shown dir.new)) }
    ensures answer_holds { IfOk result (λ done. D.observed ≡ true → AddsPassed times Area.Embryo (D.shown dir.old) (D.shown dir.new) lines.old.items lines.new.items) }
    ensures ended { IfErr result (λ e. D.observed ≡ true → EndsPassBetween times Area.Embryo (D.shown dir.old) (D.shown dir.new)) }
    ensures ready { D.observed ≡ true → Given (MaySweepAll times.now times.expire) (D.shown dir.old) (λ s. KeepsReady s (D.shown dir.new)) }
{
    match lock_area(alloc, dir, Area::Embryo, Mode::Exclusive) {
        Ok(gate) => {
            let result = pass_listed(alloc, dir, Area::Embryo, times, lines);
            unlock_area(dir, gate);
            result
        }
        Err(LockError::Busy) => {
            let deed = Deed::BusyGate;
            let line = GcLine {
                place: Area::Embryo,
                pod: None,
                deed,
            };
            push(lines, line)
        }
        Err(error) => Err(lock_fault(error)),
    }
}

/// One pass, over one area.
pub(crate) fn pass<D: Dir>(
    alloc: Global,
    dir: &mut D,
    place: Area,
    times: Times,
    lines: &mut Vec<GcLine>,
) -> Result<(), GcError>
    requires active { IsActive (D.shown dir.old).local }
    requires stage { is_stage place ≡ true }
    ensures worked { OnlyAsks D.observed (sweeps times.now) (D.shown dir.old) (D.shown dir.new) }
    ensures cause { IfErr result (λ e. GcCause D.observed e (D.shown dir.old) (D.shown dir.new)) }
    ensures lawful { IfErr result (λ e. GcStrayByApp D.observed e (MaySweepAll times.now times.expire) (D.shown dir.old) (D.shown dir.new)) }
    ensures answer_holds { IfOk result (λ done. D.observed ≡ true → AddsPassed times place (D.shown dir.old) (D.shown dir.new) lines.old.items lines.new.items) }
    ensures ended { IfErr result (λ e. D.observed ≡ true → EndsPassBetween times place (D.shown dir.old) (D.shown dir.new)) }
    ensures ready { D.observed ≡ true → Given (MaySweepAll times.now times.expire) (D.shown dir.old) (λ s. KeepsReady s (D.shown dir.new)) }
{
    match place {
        Area::Embryo => pass_embryo(alloc, dir, times, lines),
        _ => pass_listed(alloc, dir, place, times, lines),
    }
}
