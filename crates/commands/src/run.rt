// The command `run`.
ghost use Rattle.std.specs.Prelude.{◌≡◌, [], true, IfErr, IsErrOf};
ghost use Rattle.dir_model.specs.Causes.{Rose};
ghost use Rattle.dir_model.specs.declared.area.Area.{Area};
ghost use Rattle.dir_model.specs.declared.intent.Intent.{Intent};
ghost use Rattle.dir_trait.specs.Local.{IsActive};
ghost use Rattle.dir_trait.specs.Effects.{OnlyAsks};
ghost use Rattle.pod_build.specs.Preparations.{Began, MakesFaithfully};
ghost use Rattle.commands.specs.Prepare.{pod_line};
ghost use Rattle.command_outcomes.specs.Conforming.{StaysConforming};
ghost use Rattle.command_outcomes.specs.Moments.{inside_at};
ghost use Rattle.commands.specs.RunRefusals.{new_run_refusal};
ghost use Rattle.commands.specs.Run.{makes_and_runs, CanRun, NewRunSays, RunIsTold};

use crate::prepare::pod_line;
use crate::prepare_refusals::build_refusal;
use crate::running::run_owned;
use crate::wanted::Wanted;
use command_outcomes::{Output, Refusal, Told};
use dir_trait::{Dir, Draw};
use pod_build::{Built, prepare};
use pod_locks::Owned;
use spawner::Spawner;
use std::alloc::Global;

// The pod that a prepare kept for this process.
fn kept(built: Built) -> Owned
    requires { (owned : Owned) × (built ≡ Built.Running owned) }
    ensures { built ≡ Built.Running result }
{
    match built {
        Built::Running(owned) => owned,
        Built::Prepared(_) => unreachable!(),
    }
}

// The making of the pod and its run, of which this line comes first.
fn run_saying<D: Dir, S: Spawner>(
    alloc: Global,
    line: Output,
    wanted: &Wanted,
    address: &str,
    now: u64,
    draw: &Draw,
    dir: &mut D,
    spawner: &mut S,
) -> Result<Told, Refusal>
    requires active { IsActive (D.shown dir.old).local }
    requires free { (D.shown dir.old).local.holdings ≡ [] }
    requires can { D.observed ≡ true → CanRun draw.now now (D.shown dir.old) }
    requires line { line ≡ pod_line draw.now.uuid }
    ensures worked { OnlyAsks D.observed (makes_and_runs draw.now.uuid) (D.shown dir.old) (D.shown dir.new) }
    ensures cause { IsErrOf result Refusal.DirFault → Rose (D.shown dir.old).faults (D.shown dir.new).faults }
    ensures spawn_cause { IsErrOf result Refusal.SpawnFault → Rose (S.shown spawner.old).faults (S.shown spawner.new).faults }
    ensures refusals { IfErr result (λ r. new_run_refusal r ≡ true) }
    ensures known { D.observed ≡ true → (intent : Intent) → Began Area.Run draw.now now intent → StaysConforming intent (D.shown dir.old) (D.shown dir.new) }
    ensures makers { D.observed ≡ true → MakesFaithfully Area.Run draw.now now (D.shown dir.old) (D.shown dir.new) }
    ensures says { NewRunSays D.observed S.observed wanted.now address.now now draw.now (D.shown dir.old) (D.shown dir.new) (S.shown spawner.old) (S.shown spawner.new) result }
{
    match prepare(alloc, dir, wanted.refs(), wanted.options(), draw, now, true) {
        Ok(built) => run_owned(alloc, line, kept(built), address, dir, spawner),
        Err(error) => Err(build_refusal(alloc, wanted.words(), error)),
    }
}

/// The lines that `run` prints: the name of a pod of the best images of the store for what is wanted, and then one line
/// of each app with its status, in the order of the pod's manifest, after the last app has ended. The pod goes from
/// prepare to run with its lock kept. `address` is that of the metadata service, which the apps find in their
/// environment; `now` is the moment of the pod's making; its name and its token are drawn.
///
/// Refused as a prepare of these images; and then as `run-prepared` of a claimed pod, which is exited then.
pub fn run<D: Dir, S: Spawner>(
    alloc: Global,
    wanted: &Wanted,
    address: &str,
    now: u64,
    draw: &Draw,
    dir: &mut D,
    spawner: &mut S,
) -> Result<Told, Refusal>
    requires active { IsActive (D.shown dir.old).local }
    requires free { (D.shown dir.old).local.holdings ≡ [] }
    requires can { D.observed ≡ true → CanRun draw.now now (D.shown dir.old) }
    ensures worked { OnlyAsks D.observed (makes_and_runs draw.now.uuid) (D.shown dir.old) (D.shown dir.new) }
    ensures cause { IsErrOf result Refusal.DirFault → Rose (D.shown dir.old).faults (D.shown dir.new).faults }
    ensures spawn_cause { IsErrOf result Refusal.SpawnFault → Rose (S.shown spawner.old).faults (S.shown spawner.new).faults }
    ensures refusals { IfErr result (λ r. new_run_refusal r ≡ true) }
    ensures known { D.observed ≡ true → (intent : Intent) → Began Area.Run draw.now now intent → StaysConforming intent (D.shown dir.old) (D.shown dir.new) }
    ensures makers { D.observed ≡ true → MakesFaithfully Area.Run draw.now now (D.shown dir.old) (D.shown dir.new) }
    ensures says { RunIsTold wanted.now address.now now draw.now (inside_at D.Dir S.Spawner dir.old spawner.old) (inside_at D.Dir S.Spawner dir.new spawner.new) result }
{
    // Made first: a pod whose apps ran can't be named where there is no memory for its line.
    match pod_line(alloc, draw.uuid) {
        Ok(line) => run_saying(alloc, line, wanted, address, now, draw, dir, spawner),
        Err(_) => Err(Refusal::NoMemory),
    }
}
