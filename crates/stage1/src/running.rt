// A pod is run.
ghost use Rattle.std.specs.Prelude.{◌≡◌, ◌++◌, ◌∷◌, [], true, length, IfOk, IfErr, IsErrOf};
ghost use Rattle.std.specs.List.{AllByRecursion};
ghost use Rattle.dir_model.specs.declared.spot.Spot.{Spot};
ghost use Rattle.dir_model.specs.Local.{IsActive, IsOpen, without};
ghost use Rattle.lifecycle.specs.Executions.{IsConforming};
ghost use Rattle.pod_locks.specs.Running.{RunsPod};
ghost use Rattle.stage1.specs.Notes.{anything, notes_at, StaysAble};
ghost use Rattle.stage1.specs.Beginnings.{IsInRun, AreAt, RunsEach, AreMarked, AreStartedIn, AreStatusesWritten};
ghost use Rattle.stage1.specs.Cutting.{IsCutShort};
ghost use Rattle.stage1.specs.Endings.{HaveEnded, AreEndsBroken};
ghost use Rattle.stage1.specs.Refusals.{RunCause};
ghost use Rattle.stage1.specs.Keeping.{NotesAtMost, all_end_times, all_times, RunnerKeepsRules, KeepsToEnd};
ghost use Rattle.stage1.specs.Runs.{StopCause, end_of, runs_pod, runs_and_closes, HaveRun, AreWrittenAll, AreEnds, HasRunStarts, HasRunHeld, HasRun, IsRefusedRun};
ghost use Rattle.dir_trait.specs.Effects.{OnlyAsks, LeavesOpen};

use crate::beginning::{begin_apps, room_for};
use crate::end::AppEnd;
use crate::ending::{end_apps, wait_rest};
use crate::error::{Fault, RunError, fault_refusal, load_refusal, no_memory};
use crate::stand::Stand;
use crate::{AppStart, pod_launches};
use dir_trait::{Dir, PodId};
use pod_locks::Owned;
use spawner::Spawner;
use std::alloc::Global;

// The apps that have begun end; after a fault they are only waited for.
fn end_all<D: Dir, S: Spawner>(
    alloc: Global,
    dir: &mut D,
    spawner: &mut S,
    apps: &[AppStart],
    stands: &[Stand],
) -> Result<Vec<u8>, Fault>
    requires active { IsActive (D.shown dir.old).local }
    requires place { AllByRecursion IsInRun apps.now }
    requires each { length apps.now ≡ length stands.now }
    requires may { D.observed ≡ true → AreMarked (D.shown dir.old) apps.now }
    requires started { S.observed ≡ true → AreStartedIn (S.shown spawner.old).calls apps.now stands.now }
    requires wrote { D.observed ≡ true → AreStatusesWritten (D.shown dir.old) apps.now stands.now }
    ensures went { OnlyAsks D.observed anything (D.shown dir.old) (D.shown dir.new) }
    ensures worked { (spot : Spot) → AreAt spot apps.now → OnlyAsks D.observed (notes_at spot) (D.shown dir.old) (D.shown dir.new) }
    ensures stays { D.observed ≡ true → StaysAble (D.shown dir.old) (D.shown dir.new) }
    ensures cause { IfErr result (λ f. RunCause D.observed f (D.shown dir.old) (D.shown dir.new) (S.shown spawner.old) (S.shown spawner.new)) }
    ensures ended { IfOk result (λ statuses. HaveEnded S.observed apps.now stands.now statuses.items (S.shown spawner.old) (S.shown spawner.new)) }
    ensures broken { IfErr result (λ f. AreEndsBroken S.observed apps.now stands.now (S.shown spawner.old) (S.shown spawner.new)) }
    ensures wrote { IfOk result (λ statuses. D.observed ≡ true → AreWrittenAll (D.shown dir.new) apps.now statuses.items) }
    ensures keeps { D.observed ≡ true → NotesAtMost (all_end_times apps.now stands.now) (D.shown dir.old) (D.shown dir.new) }
{
    match end_apps(alloc, dir, spawner, apps, stands) {
        Ok(statuses) => Ok(statuses),
        Err(cut) => {
            wait_rest(
                alloc,
                dir,
                spawner,
                &apps[cut.turns..],
                &stands[cut.turns..],
            );
            Err(cut.fault)
        }
    }
}

// Runs the apps, and answers their statuses.
fn run_apps<D: Dir, S: Spawner>(
    alloc: Global,
    dir: &mut D,
    spawner: &mut S,
    apps: &[AppStart],
) -> Result<Vec<u8>, Fault>
    requires active { IsActive (D.shown dir.old).local }
    requires place { AllByRecursion IsInRun apps.now }
    requires runs { D.observed ≡ true → RunsEach (D.shown dir.old) apps.now }
    ensures went { OnlyAsks D.observed anything (D.shown dir.old) (D.shown dir.new) }
    ensures worked { (spot : Spot) → AreAt spot apps.now → OnlyAsks D.observed (notes_at spot) (D.shown dir.old) (D.shown dir.new) }
    ensures stays { D.observed ≡ true → StaysAble (D.shown dir.old) (D.shown dir.new) }
    ensures cause { IfErr result (λ f. RunCause D.observed f (D.shown dir.old) (D.shown dir.new) (S.shown spawner.old) (S.shown spawner.new)) }
    ensures ran { IfOk result (λ statuses. HaveRun S.observed apps.now statuses.items (S.shown spawner.old) (S.shown spawner.new)) }
    ensures cut { IfErr result (λ f. IsCutShort S.observed apps.now (S.shown spawner.old) (S.shown spawner.new)) }
    ensures marked { IfOk result (λ statuses. D.observed ≡ true → AreMarked (D.shown dir.new) apps.now) }
    ensures wrote { IfOk result (λ statuses. D.observed ≡ true → AreWrittenAll (D.shown dir.new) apps.now statuses.items) }
    ensures keeps { D.observed ≡ true → NotesAtMost (all_times apps.now) (D.shown dir.old) (D.shown dir.new) }
{
    let mut stands = room_for(alloc, apps.len())?;
    match begin_apps(alloc, dir, spawner, apps, &mut stands) {
        Ok(()) => end_all(alloc, dir, spawner, apps, &stands),
        Err(fault) => {
            wait_rest(alloc, dir, spawner, apps, &stands);
            Err(fault)
        }
    }
}

// Adds an app with its status.
fn add_status(app: &AppStart, status: u8, ends: &mut Vec<AppEnd>) -> Result<(), RunError>
    ensures added { IfOk result (λ done. ends.new.items ≡ ends.old.items ++ end_of app.now status ∷ []) }
    ensures memory { IfErr result (λ e. e ≡ RunError.NoMemory) }
{
    let app = app.name.copy().map_err(no_memory)?;
    match ends.push(AppEnd { app, status }) {
        Ok(()) => Ok(()),
        Err(_) => Err(RunError::NoMemory),
    }
}

// Each app with its status.
fn ends_of(alloc: Global, apps: &[AppStart], statuses: &[u8]) -> Result<Vec<AppEnd>, RunError>
    requires { length apps.now ≡ length statuses.now }
    ensures ends { IfOk result (λ ends. AreEnds apps.now statuses.now ends.items) }
    ensures memory { IfErr result (λ e. e ≡ RunError.NoMemory) }
{
    let mut ends = Vec::new(alloc);
    'apps: for (place, app) in apps.iter().enumerate() {
        add_status(app, statuses[place], &mut ends)?;
    }
    Ok(ends)
}

// Runs the apps to their ends.
fn run_starts<D: Dir, S: Spawner>(
    alloc: Global,
    dir: &mut D,
    spawner: &mut S,
    apps: &[AppStart],
) -> Result<Vec<AppEnd>, RunError>
    requires active { IsActive (D.shown dir.old).local }
    requires place { AllByRecursion IsInRun apps.now }
    requires runs { D.observed ≡ true → RunsEach (D.shown dir.old) apps.now }
    ensures went { OnlyAsks D.observed anything (D.shown dir.old) (D.shown dir.new) }
    ensures worked { (spot : Spot) → AreAt spot apps.now → OnlyAsks D.observed (notes_at spot) (D.shown dir.old) (D.shown dir.new) }
    ensures stays { D.observed ≡ true → StaysAble (D.shown dir.old) (D.shown dir.new) }
    ensures ran { IfOk result (λ ends. HasRunStarts D.observed S.observed apps.now ends.items (D.shown dir.new) (S.shown spawner.old) (S.shown spawner.new)) }
    ensures cut { IfErr result (λ e. IsCutShort S.observed apps.now (S.shown spawner.old) (S.shown spawner.new)) }
    ensures cause { IfErr result (λ e. StopCause D.observed e (D.shown dir.old) (D.shown dir.new) (S.shown spawner.old) (S.shown spawner.new)) }
    ensures keeps { D.observed ≡ true → NotesAtMost (all_times apps.now) (D.shown dir.old) (D.shown dir.new) }
{
    match run_apps(alloc, dir, spawner, apps) {
        Ok(statuses) => ends_of(alloc, apps, &statuses),
        Err(fault) => Err(fault_refusal(fault)),
    }
}

// Finds every program, and then runs the apps.
fn run_held<D: Dir, S: Spawner>(
    alloc: Global,
    dir: &mut D,
    spawner: &mut S,
    pod: PodId,
    address: &str,
) -> Result<Vec<AppEnd>, RunError>
    requires active { IsActive (D.shown dir.old).local }
    requires runs { D.observed ≡ true → RunsPod pod (D.shown dir.old) }
    ensures worked { OnlyAsks D.observed (runs_pod pod) (D.shown dir.old) (D.shown dir.new) }
    ensures ran { IfOk result (λ ends. HasRunHeld D.observed S.observed pod address.now ends.items (D.shown dir.old) (D.shown dir.new) (S.shown spawner.old) (S.shown spawner.new)) }
    ensures refused { IfErr result (λ e. IsRefusedRun D.observed S.observed pod address.now e (D.shown dir.old) (D.shown dir.new) (S.shown spawner.old) (S.shown spawner.new)) }
    ensures keeps { D.observed ≡ true → RunnerKeepsRules pod (D.shown dir.old) (D.shown dir.new) }
{
    match pod_launches(alloc, dir, pod, address) {
        Ok(apps) => run_starts(alloc, dir, spawner, &apps),
        Err(error) => Err(load_refusal(error)),
    }
}

/// Runs the apps of a pod that this process owns, in the order of its manifest: marks each as started and
/// syncs the mark, makes its root ready, runs its handler before it and starts it; then waits for each,
/// runs the handler after it, and notes its status in the pod. Answers each app with its status. `address`
/// is that of the metadata service. The pod's own lock is given up after the last wait.
///
/// Refused in this order. `NoManifest`, `Damaged` and `NoProgram` before anything is started, as
/// `pod_launches` says. Then by the first fault in the order of time: `SpawnFault` where the spawner
/// failed, `DirFault` where the directory failed, `Stray` where the directory refused a note as if the pod
/// weren't this process's own, `NoMemory` where memory ran out. After a fault nothing more is started, and
/// each child that was started is waited for once.
pub fn run_pod<D: Dir, S: Spawner>(
    alloc: Global,
    dir: &mut D,
    spawner: &mut S,
    owned: Owned,
    address: &str,
) -> Result<Vec<AppEnd>, RunError>
    requires active { IsActive (D.shown dir.old).local }
    requires open { IsOpen (D.shown dir.old).local owned.own }
    requires runs { D.observed ≡ true → RunsPod owned.pod (D.shown dir.old) }
    ensures went { LeavesOpen D.observed (runs_and_closes owned.pod owned.own) (without (D.shown dir.old).local owned.own) (D.shown dir.old) (D.shown dir.new) }
    ensures ran { IfOk result (λ ends. HasRun D.observed S.observed owned.pod owned.own address.now ends.items (D.shown dir.old) (D.shown dir.new) (S.shown spawner.old) (S.shown spawner.new)) }
    ensures refused { IfErr result (λ e. IsRefusedRun D.observed S.observed owned.pod address.now e (D.shown dir.old) (D.shown dir.new) (S.shown spawner.old) (S.shown spawner.new)) }
    ensures keeps { D.observed ≡ true → KeepsToEnd owned.pod owned.own (D.shown dir.old) (D.shown dir.new) }
    ensures lawful { IsErrOf result RunError.Stray → D.observed ≡ true → IsConforming (D.shown dir.new).trace → ⊥ }
{
    let result = run_held(alloc, dir, spawner, owned.pod, address);
    dir.close(owned.own);
    result
}
