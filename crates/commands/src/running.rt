// The run of a pod that this process owns.
ghost use Rattle.std.specs.Prelude.{◌≡◌, ◌≤◌, true, IfErr, IsErrOf};
ghost use Rattle.dir_model.specs.Causes.{Rose};
ghost use Rattle.dir_trait.specs.Local.{IsActive, IsOpen, without};
ghost use Rattle.dir_trait.specs.Effects.{LeavesOpen};
ghost use Rattle.pod_locks.specs.Running.{RunsPod};
ghost use Rattle.stage1.specs.Runs.{runs_and_closes};
ghost use Rattle.stage1.specs.Keeping.{KeepsToEnd};
ghost use Rattle.commands.specs.RunRefusals.{apps_refusal};
ghost use Rattle.commands.specs.AppRuns.{RunSays};

use crate::app_ends::tell;
use crate::run_refusals::run_refusal;
use command_outcomes::{Output, Refusal, Told};
use dir_trait::Dir;
use pod_locks::Owned;
use spawner::Spawner;
use stage1::run_pod;
use std::alloc::Global;

/// Runs the apps of the pod to their ends, with this address of the metadata service in their environment, and tells
/// each with its status after the text. The pod's own lock is given
/// up before.
pub(crate) fn run_owned<D: Dir, S: Spawner>(
    alloc: Global,
    text: Output,
    owned: Owned,
    address: &str,
    dir: &mut D,
    spawner: &mut S,
) -> Result<Told, Refusal>
    requires active { IsActive (D.shown dir.old).local }
    requires open { IsOpen (D.shown dir.old).local owned.own }
    requires runs { D.observed ≡ true → RunsPod owned.pod (D.shown dir.old) }
    ensures went { LeavesOpen D.observed (runs_and_closes owned.pod owned.own) (without (D.shown dir.old).local owned.own) (D.shown dir.old) (D.shown dir.new) }
    ensures cause { IsErrOf result Refusal.DirFault → Rose (D.shown dir.old).faults (D.shown dir.new).faults }
    ensures spawn_cause { IsErrOf result Refusal.SpawnFault → Rose (S.shown spawner.old).faults (S.shown spawner.new).faults }
    ensures refusals { IfErr result (λ r. apps_refusal r ≡ true) }
    ensures keeps { D.observed ≡ true → KeepsToEnd owned.pod owned.own (D.shown dir.old) (D.shown dir.new) }
    ensures says { RunSays D.observed S.observed owned address.now text (D.shown dir.old) (D.shown dir.new) (S.shown spawner.old) (S.shown spawner.new) result }
{
    let pod = owned.pod;
    match run_pod(alloc, dir, spawner, owned, address) {
        Ok(ends) => tell(alloc, text, ends.as_slice()),
        Err(error) => Err(run_refusal(alloc, pod, error)),
    }
}
