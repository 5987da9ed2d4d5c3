// The apps of a pod begin.
ghost use Rattle.std.specs.Prelude.{◌≡◌, ◌≤◌, ◌+◌, ◌<◌, ◌++◌, ◌∷◌, [], true, length, take, vec_len, vec_capacity, IfOk, IfErr};
ghost use Rattle.std.specs.List.{AllByRecursion};
ghost use Rattle.dir_model.specs.declared.spot.Spot.{Spot};
ghost use Rattle.dir_model.specs.Local.{IsActive};
ghost use Rattle.spawner.specs.Conditions.{StillRuns};
ghost use Rattle.stage1.specs.Notes.{anything, notes_at, StaysAble, IsMarked};
ghost use Rattle.stage1.specs.Beginnings.{IsInRun, AreAt, RunsEach, AreMarked, IsStartedIn, AreStartedIn, IsStatusWritten, AreStatusesWritten};
ghost use Rattle.stage1.specs.Beginnings.{RanPrelude, PreludeCut, StartedMain, MainStartCut, AppHasBegun, IsInterrupted, HaveBegun, AreInterrupted};
ghost use Rattle.stage1.specs.Refusals.{SpawnCause, RunCause};
ghost use Rattle.stage1.specs.Keeping.{NotesAtMost, going_times, beginning_times, all_begun_times};
ghost use Rattle.dir_trait.specs.Effects.{OnlyAsks};

use crate::AppStart;
use crate::error::{Fault, out_of_memory};
use crate::notes::{mark_started, note_status};
use crate::programs::{make_ready, run_handler, start_program};
use crate::stand::Stand;
use dir_trait::Dir;
use spawner::Spawner;
use std::alloc::Global;

// The main program starts after a handler that ended with 0. Any other status is the app's own.
fn go_on<D: Dir, S: Spawner>(
    alloc: Global,
    dir: &mut D,
    spawner: &mut S,
    app: &AppStart,
    status: u8,
) -> Result<Stand, Fault>
    requires active { IsActive (D.shown dir.old).local }
    requires place { IsInRun app.now }
    requires may { D.observed ≡ true → IsMarked (D.shown dir.old) app.now.root }
    ensures worked { OnlyAsks D.observed (notes_at app.now.root.spot) (D.shown dir.old) (D.shown dir.new) }
    ensures stays { D.observed ≡ true → StaysAble (D.shown dir.old) (D.shown dir.new) }
    ensures cause { IfErr result (λ f. RunCause D.observed f (D.shown dir.old) (D.shown dir.new) (S.shown spawner.old) (S.shown spawner.new)) }
    ensures went { IfOk result (λ stand. StartedMain S.observed app.now status stand (S.shown spawner.old) (S.shown spawner.new)) }
    ensures cut { IfErr result (λ f. MainStartCut S.observed app.now status (S.shown spawner.old) (S.shown spawner.new)) }
    ensures started { IfOk result (λ stand. S.observed ≡ true → IsStartedIn (S.shown spawner.new).calls app.now stand) }
    ensures wrote { IfOk result (λ stand. D.observed ≡ true → IsStatusWritten (D.shown dir.new) app.now stand) }
    ensures keeps { D.observed ≡ true → NotesAtMost (going_times app.now result) (D.shown dir.old) (D.shown dir.new) }
{
    if status == 0 {
        match start_program(alloc, dir, spawner, app, &app.launch.main) {
            Ok(child) => Ok(Stand::Running(child)),
            Err(fault) => Err(fault),
        }
    } else {
        match note_status(alloc, dir, &app.root, status) {
            Ok(()) => Ok(Stand::Ended(status)),
            Err(fault) => Err(fault),
        }
    }
}

// Makes the app's root ready and runs the handler before it, once it is marked as started.
fn prelude<D: Dir, S: Spawner>(
    alloc: Global,
    dir: &D,
    spawner: &mut S,
    app: &AppStart,
) -> Result<u8, Fault>
    requires may { D.observed ≡ true → IsMarked (D.shown dir.now) app.now.root }
    ensures ran { IfOk result (λ status. RanPrelude S.observed app.now status (S.shown spawner.old) (S.shown spawner.new)) }
    ensures cut { IfErr result (λ f. PreludeCut S.observed app.now (S.shown spawner.old) (S.shown spawner.new)) }
    ensures cause { IfErr result (λ f. SpawnCause f (S.shown spawner.old) (S.shown spawner.new)) }
{
    make_ready(alloc, dir, spawner, app)?;
    run_handler(alloc, dir, spawner, app, &app.launch.pre_start)
}

// An app begins. The mark is made and synced before the first call of the spawner: an app of which
// the machine's end leaves no mark has run nothing.
fn begin_app<D: Dir, S: Spawner>(
    alloc: Global,
    dir: &mut D,
    spawner: &mut S,
    app: &AppStart,
) -> Result<Stand, Fault>
    requires active { IsActive (D.shown dir.old).local }
    requires place { IsInRun app.now }
    requires runs { D.observed ≡ true → StillRuns (D.shown dir.old) app.now.root.spot.name }
    ensures worked { OnlyAsks D.observed (notes_at app.now.root.spot) (D.shown dir.old) (D.shown dir.new) }
    ensures stays { D.observed ≡ true → StaysAble (D.shown dir.old) (D.shown dir.new) }
    ensures cause { IfErr result (λ f. RunCause D.observed f (D.shown dir.old) (D.shown dir.new) (S.shown spawner.old) (S.shown spawner.new)) }
    ensures begun { IfOk result (λ stand. AppHasBegun S.observed app.now stand (S.shown spawner.old) (S.shown spawner.new)) }
    ensures broken { IfErr result (λ f. IsInterrupted S.observed app.now (S.shown spawner.old) (S.shown spawner.new)) }
    ensures may { IfOk result (λ stand. D.observed ≡ true → IsMarked (D.shown dir.new) app.now.root) }
    ensures started { IfOk result (λ stand. S.observed ≡ true → IsStartedIn (S.shown spawner.new).calls app.now stand) }
    ensures wrote { IfOk result (λ stand. D.observed ≡ true → IsStatusWritten (D.shown dir.new) app.now stand) }
    ensures keeps { D.observed ≡ true → NotesAtMost (beginning_times app.now result) (D.shown dir.old) (D.shown dir.new) }
{
    mark_started(alloc, dir, &app.root)?;
    let status = prelude(alloc, dir, spawner, app)?;
    go_on(alloc, dir, spawner, app, status)
}

// Adds a stand for which there is room.
fn push_within(stands: &mut Vec<Stand>, stand: Stand)
    requires { vec_len stands.old < vec_capacity stands.old }
    ensures pushed { stands.new.items ≡ stands.old.items ++ stand ∷ [] }
    ensures longer { vec_len stands.new ≡ vec_len stands.old + 1 }
    ensures room { vec_capacity stands.old ≤ vec_capacity stands.new }
{
    match stands.push(stand) {
        Ok(()) => (),
        Err(_) => unreachable!(),
    }
}

/// The apps begin, in their order, up to the first fault. There is room for their stands, so that none
/// is started and forgotten.
pub(crate) fn begin_apps<D: Dir, S: Spawner>(
    alloc: Global,
    dir: &mut D,
    spawner: &mut S,
    apps: &[AppStart],
    stands: &mut Vec<Stand>,
) -> Result<(), Fault>
    requires active { IsActive (D.shown dir.old).local }
    requires place { AllByRecursion IsInRun apps.now }
    requires runs { D.observed ≡ true → RunsEach (D.shown dir.old) apps.now }
    requires none { stands.old.items ≡ [] }
    requires room { length apps.now ≤ vec_capacity stands.old }
    ensures went { OnlyAsks D.observed anything (D.shown dir.old) (D.shown dir.new) }
    ensures worked { (spot : Spot) → AreAt spot apps.now → OnlyAsks D.observed (notes_at spot) (D.shown dir.old) (D.shown dir.new) }
    ensures stays { D.observed ≡ true → StaysAble (D.shown dir.old) (D.shown dir.new) }
    ensures cause { IfErr result (λ f. RunCause D.observed f (D.shown dir.old) (D.shown dir.new) (S.shown spawner.old) (S.shown spawner.new)) }
    ensures begun { IfOk result (λ done. HaveBegun S.observed apps.now stands.new.items (S.shown spawner.old) (S.shown spawner.new)) }
    ensures broken { IfErr result (λ f. AreInterrupted S.observed apps.now stands.new.items (S.shown spawner.old) (S.shown spawner.new)) }
    ensures may { D.observed ≡ true → AreMarked (D.shown dir.new) (take (length stands.new.items) apps.now) }
    ensures started { S.observed ≡ true → AreStartedIn (S.shown spawner.new).calls (take (length stands.new.items) apps.now) stands.new.items }
    ensures wrote { D.observed ≡ true → AreStatusesWritten (D.shown dir.new) (take (length stands.new.items) apps.now) stands.new.items }
    ensures keeps { D.observed ≡ true → NotesAtMost (all_begun_times apps.now stands.new.items) (D.shown dir.old) (D.shown dir.new) }
{
    'apps: for app in apps {
        let stand = begin_app(alloc, dir, spawner, app)?;
        push_within(stands, stand);
    }
    Ok(())
}

/// Room for the stands of so many apps.
pub(crate) fn room_for(alloc: Global, apps: usize) -> Result<Vec<Stand>, Fault>
    ensures none { IfOk result (λ stands. stands.items ≡ []) }
    ensures room { IfOk result (λ stands. apps ≤ vec_capacity stands) }
    ensures memory { IfErr result (λ f. f ≡ Fault.NoMemory) }
{
    Vec::with_capacity(alloc, apps).map_err(out_of_memory)
}
