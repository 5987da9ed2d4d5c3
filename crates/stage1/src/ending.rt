// The apps of a pod end.
ghost use Rattle.std.specs.Prelude.{◌≡◌, ◌≤◌, ◌∷◌, [], true, length, take, IfOk, IfErr};
ghost use Rattle.std.specs.List.{AllByRecursion};
ghost use Rattle.dir_model.specs.declared.spot.Spot.{Spot};
ghost use Rattle.dir_model.specs.Local.{IsActive};
ghost use Rattle.stage1.specs.Sequences.{wait_call};
ghost use Rattle.stage1.specs.Asking.{Asks, StartedIn};
ghost use Rattle.stage1.specs.Notes.{anything, notes_at, WroteStatus, StaysAble, IsMarked};
ghost use Rattle.stage1.specs.Beginnings.{IsInRun, AreAt, AreMarked, IsStartedIn, AreStartedIn, IsStatusWritten, AreStatusesWritten, running};
ghost use Rattle.stage1.specs.Endings.{WasWaitedFor, AppHasEnded, IsEndCut, EndsFromStand, EndsCut, AddsEnd, HaveEnded, AreEndsCut, WereWaitedFor};
ghost use Rattle.stage1.specs.Refusals.{RunCause};
ghost use Rattle.stage1.specs.Keeping.{NotesAtMost, status_times, end_times, all_end_times};
ghost use Rattle.stage1.specs.Runs.{AddsWritten, AreWrittenAll};
ghost use Rattle.dir_trait.specs.Effects.{OnlyAsks};

use crate::AppStart;
use crate::error::Fault;
use crate::notes::note_status;
use crate::programs::{run_handler, wait_for};
use crate::stand::Stand;
use dir_trait::Dir;
use spawner::{Child, Spawner};
use std::alloc::Global;

/// What cut the ending of the apps short, and how many had their turn.
#[derive(Clone, Copy)]
pub(crate) struct Cut {
    pub turns: usize,
    pub fault: Fault,
}

// Waits for the main program of an app, and writes its status.
fn wait_app<D: Dir, S: Spawner>(
    alloc: Global,
    dir: &mut D,
    spawner: &mut S,
    app: &AppStart,
    child: Child,
) -> Result<u8, Fault>
    requires active { IsActive (D.shown dir.old).local }
    requires place { IsInRun app.now }
    requires may { D.observed ≡ true → IsMarked (D.shown dir.old) app.now.root }
    requires started { S.observed ≡ true → StartedIn app.now.root child (S.shown spawner.old).calls }
    ensures worked { OnlyAsks D.observed (notes_at app.now.root.spot) (D.shown dir.old) (D.shown dir.new) }
    ensures stays { D.observed ≡ true → StaysAble (D.shown dir.old) (D.shown dir.new) }
    ensures cause { IfErr result (λ f. RunCause D.observed f (D.shown dir.old) (D.shown dir.new) (S.shown spawner.old) (S.shown spawner.new)) }
    ensures asked { IfOk result (λ status. Asks S.observed (S.shown spawner.old) (wait_call child status ∷ []) (S.shown spawner.new)) }
    ensures waited { IfErr result (λ f. WasWaitedFor S.observed child (S.shown spawner.old) (S.shown spawner.new)) }
    ensures wrote { IfOk result (λ status. D.observed ≡ true → WroteStatus app.now.root status (D.shown dir.new)) }
    ensures keeps { D.observed ≡ true → NotesAtMost (status_times app.now.root) (D.shown dir.old) (D.shown dir.new) }
{
    match wait_for(alloc, dir, spawner, child) {
        Ok(status) => match note_status(alloc, dir, &app.root, status) {
            Ok(()) => Ok(status),
            Err(fault) => Err(fault),
        },
        Err(fault) => Err(fault),
    }
}

// An app ends whose main program was started. The status of the handler after it is of no account.
fn end_running<D: Dir, S: Spawner>(
    alloc: Global,
    dir: &mut D,
    spawner: &mut S,
    app: &AppStart,
    child: Child,
) -> Result<u8, Fault>
    requires active { IsActive (D.shown dir.old).local }
    requires place { IsInRun app.now }
    requires may { D.observed ≡ true → IsMarked (D.shown dir.old) app.now.root }
    requires started { S.observed ≡ true → StartedIn app.now.root child (S.shown spawner.old).calls }
    ensures worked { OnlyAsks D.observed (notes_at app.now.root.spot) (D.shown dir.old) (D.shown dir.new) }
    ensures stays { D.observed ≡ true → StaysAble (D.shown dir.old) (D.shown dir.new) }
    ensures cause { IfErr result (λ f. RunCause D.observed f (D.shown dir.old) (D.shown dir.new) (S.shown spawner.old) (S.shown spawner.new)) }
    ensures ended { IfOk result (λ status. AppHasEnded S.observed app.now child status (S.shown spawner.old) (S.shown spawner.new)) }
    ensures cut { IfErr result (λ f. IsEndCut S.observed app.now child (S.shown spawner.old) (S.shown spawner.new)) }
    ensures wrote { IfOk result (λ status. D.observed ≡ true → WroteStatus app.now.root status (D.shown dir.new)) }
    ensures keeps { D.observed ≡ true → NotesAtMost (status_times app.now.root) (D.shown dir.old) (D.shown dir.new) }
{
    let status = wait_app(alloc, dir, spawner, app, child)?;
    match run_handler(alloc, dir, spawner, app, &app.launch.post_stop) {
        Ok(_) => Ok(status),
        Err(fault) => Err(fault),
    }
}

// An app ends.
fn end_app<D: Dir, S: Spawner>(
    alloc: Global,
    dir: &mut D,
    spawner: &mut S,
    app: &AppStart,
    stand: Stand,
) -> Result<u8, Fault>
    requires active { IsActive (D.shown dir.old).local }
    requires place { IsInRun app.now }
    requires may { D.observed ≡ true → IsMarked (D.shown dir.old) app.now.root }
    requires started { S.observed ≡ true → IsStartedIn (S.shown spawner.old).calls app.now stand }
    requires wrote { D.observed ≡ true → IsStatusWritten (D.shown dir.old) app.now stand }
    ensures worked { OnlyAsks D.observed (notes_at app.now.root.spot) (D.shown dir.old) (D.shown dir.new) }
    ensures stays { D.observed ≡ true → StaysAble (D.shown dir.old) (D.shown dir.new) }
    ensures cause { IfErr result (λ f. RunCause D.observed f (D.shown dir.old) (D.shown dir.new) (S.shown spawner.old) (S.shown spawner.new)) }
    ensures ended { IfOk result (λ status. EndsFromStand S.observed app.now stand status (S.shown spawner.old) (S.shown spawner.new)) }
    ensures cut { IfErr result (λ f. EndsCut S.observed app.now stand (S.shown spawner.old) (S.shown spawner.new)) }
    ensures wrote { IfOk result (λ status. D.observed ≡ true → WroteStatus app.now.root status (D.shown dir.new)) }
    ensures keeps { D.observed ≡ true → NotesAtMost (end_times app.now stand) (D.shown dir.old) (D.shown dir.new) }
{
    match stand {
        Stand::Running(child) => end_running(alloc, dir, spawner, app, child),
        Stand::Ended(status) => Ok(status),
    }
}

// An app ends, and its status is added.
fn add_end<D: Dir, S: Spawner>(
    alloc: Global,
    dir: &mut D,
    spawner: &mut S,
    app: &AppStart,
    stand: Stand,
    statuses: &mut Vec<u8>,
) -> Result<(), Fault>
    requires active { IsActive (D.shown dir.old).local }
    requires place { IsInRun app.now }
    requires may { D.observed ≡ true → IsMarked (D.shown dir.old) app.now.root }
    requires started { S.observed ≡ true → IsStartedIn (S.shown spawner.old).calls app.now stand }
    requires wrote { D.observed ≡ true → IsStatusWritten (D.shown dir.old) app.now stand }
    ensures worked { OnlyAsks D.observed (notes_at app.now.root.spot) (D.shown dir.old) (D.shown dir.new) }
    ensures stays { D.observed ≡ true → StaysAble (D.shown dir.old) (D.shown dir.new) }
    ensures cause { IfErr result (λ f. RunCause D.observed f (D.shown dir.old) (D.shown dir.new) (S.shown spawner.old) (S.shown spawner.new)) }
    ensures added { IfOk result (λ done. AddsEnd S.observed app.now stand statuses.old.items statuses.new.items (S.shown spawner.old) (S.shown spawner.new)) }
    ensures cut { IfErr result (λ f. EndsCut S.observed app.now stand (S.shown spawner.old) (S.shown spawner.new)) }
    ensures wrote { IfOk result (λ done. D.observed ≡ true → AddsWritten app.now.root statuses.old.items statuses.new.items (D.shown dir.new)) }
    ensures keeps { D.observed ≡ true → NotesAtMost (end_times app.now stand) (D.shown dir.old) (D.shown dir.new) }
{
    let status = end_app(alloc, dir, spawner, app, stand)?;
    match statuses.push(status) {
        Ok(()) => Ok(()),
        Err(_) => Err(Fault::NoMemory),
    }
}

/// The apps end, in their order, up to the first fault.
pub(crate) fn end_apps<D: Dir, S: Spawner>(
    alloc: Global,
    dir: &mut D,
    spawner: &mut S,
    apps: &[AppStart],
    stands: &[Stand],
) -> Result<Vec<u8>, Cut>
    requires active { IsActive (D.shown dir.old).local }
    requires place { AllByRecursion IsInRun apps.now }
    requires each { length apps.now ≡ length stands.now }
    requires may { D.observed ≡ true → AreMarked (D.shown dir.old) apps.now }
    requires started { S.observed ≡ true → AreStartedIn (S.shown spawner.old).calls apps.now stands.now }
    requires wrote { D.observed ≡ true → AreStatusesWritten (D.shown dir.old) apps.now stands.now }
    ensures went { OnlyAsks D.observed anything (D.shown dir.old) (D.shown dir.new) }
    ensures worked { (spot : Spot) → AreAt spot apps.now → OnlyAsks D.observed (notes_at spot) (D.shown dir.old) (D.shown dir.new) }
    ensures stays { D.observed ≡ true → StaysAble (D.shown dir.old) (D.shown dir.new) }
    ensures cause { IfErr result (λ cut. RunCause D.observed cut.fault (D.shown dir.old) (D.shown dir.new) (S.shown spawner.old) (S.shown spawner.new)) }
    ensures ended { IfOk result (λ statuses. HaveEnded S.observed apps.now stands.now statuses.items (S.shown spawner.old) (S.shown spawner.new)) }
    ensures cut { IfErr result (λ cut. AreEndsCut S.observed apps.now stands.now cut.turns (S.shown spawner.old) (S.shown spawner.new)) }
    ensures turns { IfErr result (λ cut. cut.turns ≤ length stands.now) }
    ensures wrote { IfOk result (λ statuses. D.observed ≡ true → AreWrittenAll (D.shown dir.new) apps.now statuses.items) }
    ensures keeps { IfOk result (λ statuses. D.observed ≡ true → NotesAtMost (all_end_times apps.now stands.now) (D.shown dir.old) (D.shown dir.new)) }
    ensures keeps_cut { IfErr result (λ cut. D.observed ≡ true → NotesAtMost (all_end_times (take cut.turns apps.now) (take cut.turns stands.now)) (D.shown dir.old) (D.shown dir.new)) }
{
    let mut statuses = Vec::new(alloc);
    'apps: for (place, app) in apps.iter().enumerate() {
        if let Err(fault) = add_end(alloc, dir, spawner, app, stands[place], &mut statuses) {
            let turns = place + 1;
            return Err(Cut { turns, fault });
        }
    }
    Ok(statuses)
}

// After a fault an app is waited for all the same, and its status is written where that can be done. Only
// the first fault is answered.
fn wait_still<D: Dir, S: Spawner>(
    alloc: Global,
    dir: &mut D,
    spawner: &mut S,
    app: &AppStart,
    stand: Stand,
)
    requires active { IsActive (D.shown dir.old).local }
    requires place { IsInRun app.now }
    requires may { D.observed ≡ true → IsMarked (D.shown dir.old) app.now.root }
    requires started { S.observed ≡ true → IsStartedIn (S.shown spawner.old).calls app.now stand }
    ensures worked { OnlyAsks D.observed (notes_at app.now.root.spot) (D.shown dir.old) (D.shown dir.new) }
    ensures stays { D.observed ≡ true → StaysAble (D.shown dir.old) (D.shown dir.new) }
    ensures waited { WereWaitedFor S.observed (running (stand ∷ [])) (S.shown spawner.old) (S.shown spawner.new) }
    ensures keeps { D.observed ≡ true → NotesAtMost (end_times app.now stand) (D.shown dir.old) (D.shown dir.new) }
{
    match stand {
        Stand::Running(child) => {
            let _status = wait_app(alloc, dir, spawner, app, child);
        }
        Stand::Ended(_) => (),
    }
}

/// After a fault: waits for each of the apps whose main programs were started.
pub(crate) fn wait_rest<D: Dir, S: Spawner>(
    alloc: Global,
    dir: &mut D,
    spawner: &mut S,
    apps: &[AppStart],
    stands: &[Stand],
)
    requires active { IsActive (D.shown dir.old).local }
    requires place { AllByRecursion IsInRun apps.now }
    requires each { length stands.now ≤ length apps.now }
    requires may { D.observed ≡ true → AreMarked (D.shown dir.old) (take (length stands.now) apps.now) }
    requires started { S.observed ≡ true → AreStartedIn (S.shown spawner.old).calls (take (length stands.now) apps.now) stands.now }
    ensures went { OnlyAsks D.observed anything (D.shown dir.old) (D.shown dir.new) }
    ensures worked { (spot : Spot) → AreAt spot apps.now → OnlyAsks D.observed (notes_at spot) (D.shown dir.old) (D.shown dir.new) }
    ensures stays { D.observed ≡ true → StaysAble (D.shown dir.old) (D.shown dir.new) }
    ensures waited { WereWaitedFor S.observed (running stands.now) (S.shown spawner.old) (S.shown spawner.new) }
    ensures keeps { D.observed ≡ true → NotesAtMost (all_end_times apps.now stands.now) (D.shown dir.old) (D.shown dir.new) }
{
    'stands: for (place, stand) in stands.iter().enumerate() {
        wait_still(alloc, dir, spawner, &apps[place], *stand);
    }
}
