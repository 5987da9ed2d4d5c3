// The programs of an app: started, and waited for.
ghost use Rattle.std.specs.Prelude.{◌≡◌, ◌∷◌, [], true, IfOk, IfErr};
ghost use Rattle.spawner.specs.Conditions.{MayWait};
ghost use Rattle.stage1.specs.Notes.{IsMarked};
ghost use Rattle.stage1.specs.Sequences.{ready_call, start_call, wait_call};
ghost use Rattle.stage1.specs.Asking.{Asks, StartedIn};
ghost use Rattle.stage1.specs.Programs.{SpawnWasRefused, ready_request, start_request, wait_request, RanProgram, ProgramCut, RanHandler, HandlerCut};
ghost use Rattle.stage1.specs.Refusals.{SpawnCause};

use crate::AppStart;
use crate::error::{Fault, spawn_fault};
use dir_trait::Dir;
use spawner::{Child, Spawner, Words};
use std::alloc::Global;

/// Makes the links and the modes of the app's root.
pub(crate) fn make_ready<D: Dir, S: Spawner>(
    alloc: Global,
    dir: &D,
    spawner: &mut S,
    app: &AppStart,
) -> Result<(), Fault>
    requires may { D.observed ≡ true → IsMarked (D.shown dir.now) app.now.root }
    ensures asked { IfOk result (λ done. Asks S.observed (S.shown spawner.old) (ready_call app.now ∷ []) (S.shown spawner.new)) }
    ensures refused { IfErr result (λ f. SpawnWasRefused S.observed (ready_request app.now) (S.shown spawner.old) (S.shown spawner.new)) }
    ensures cause { IfErr result (λ f. SpawnCause f (S.shown spawner.old) (S.shown spawner.new)) }
{
    match spawner.ready(alloc, dir, &app.root, app.listing.as_slice()) {
        Ok(()) => Ok(()),
        Err(error) => Err(spawn_fault(error)),
    }
}

/// Starts a program of the app.
pub(crate) fn start_program<D: Dir, S: Spawner>(
    alloc: Global,
    dir: &D,
    spawner: &mut S,
    app: &AppStart,
    argv: &Words,
) -> Result<Child, Fault>
    requires may { D.observed ≡ true → IsMarked (D.shown dir.now) app.now.root }
    ensures asked { IfOk result (λ child. Asks S.observed (S.shown spawner.old) (start_call app.now argv.now child ∷ []) (S.shown spawner.new)) }
    ensures started { IfOk result (λ child. S.observed ≡ true → StartedIn app.now.root child (S.shown spawner.new).calls) }
    ensures refused { IfErr result (λ f. SpawnWasRefused S.observed (start_request app.now argv.now) (S.shown spawner.old) (S.shown spawner.new)) }
    ensures cause { IfErr result (λ f. SpawnCause f (S.shown spawner.old) (S.shown spawner.new)) }
{
    let launch = &app.launch;
    match spawner.start(
        alloc,
        dir,
        &app.root,
        argv,
        &launch.environment,
        launch.directory.as_str(),
    ) {
        Ok(child) => Ok(child),
        Err(error) => Err(spawn_fault(error)),
    }
}

/// Waits until a program has ended.
pub(crate) fn wait_for<D: Dir, S: Spawner>(
    alloc: Global,
    dir: &D,
    spawner: &mut S,
    child: Child,
) -> Result<u8, Fault>
    requires may { D.observed ≡ true → S.observed ≡ true → MayWait (D.shown dir.now) (S.shown spawner.old).calls child }
    ensures asked { IfOk result (λ status. Asks S.observed (S.shown spawner.old) (wait_call child status ∷ []) (S.shown spawner.new)) }
    ensures refused { IfErr result (λ f. SpawnWasRefused S.observed (wait_request child) (S.shown spawner.old) (S.shown spawner.new)) }
    ensures cause { IfErr result (λ f. SpawnCause f (S.shown spawner.old) (S.shown spawner.new)) }
{
    match spawner.wait(alloc, dir, child) {
        Ok(status) => Ok(status),
        Err(error) => Err(spawn_fault(error)),
    }
}

// Runs a program of the app to its end.
fn run_program<D: Dir, S: Spawner>(
    alloc: Global,
    dir: &D,
    spawner: &mut S,
    app: &AppStart,
    argv: &Words,
) -> Result<u8, Fault>
    requires may { D.observed ≡ true → IsMarked (D.shown dir.now) app.now.root }
    ensures ran { IfOk result (λ status. RanProgram S.observed app.now argv.now status (S.shown spawner.old) (S.shown spawner.new)) }
    ensures cut { IfErr result (λ f. ProgramCut S.observed app.now argv.now (S.shown spawner.old) (S.shown spawner.new)) }
    ensures cause { IfErr result (λ f. SpawnCause f (S.shown spawner.old) (S.shown spawner.new)) }
{
    match start_program(alloc, dir, spawner, app, argv) {
        Ok(child) => wait_for(alloc, dir, spawner, child),
        Err(fault) => Err(fault),
    }
}

/// Runs a handler of the app to its end. Answers 0 where there is none.
pub(crate) fn run_handler<D: Dir, S: Spawner>(
    alloc: Global,
    dir: &D,
    spawner: &mut S,
    app: &AppStart,
    handler: &Option<Words>,
) -> Result<u8, Fault>
    requires may { D.observed ≡ true → IsMarked (D.shown dir.now) app.now.root }
    ensures ran { IfOk result (λ status. RanHandler S.observed app.now handler.now status (S.shown spawner.old) (S.shown spawner.new)) }
    ensures cut { IfErr result (λ f. HandlerCut S.observed app.now handler.now (S.shown spawner.old) (S.shown spawner.new)) }
    ensures cause { IfErr result (λ f. SpawnCause f (S.shown spawner.old) (S.shown spawner.new)) }
{
    match handler {
        Some(argv) => run_program(alloc, dir, spawner, app, argv),
        None => Ok(0),
    }
}
