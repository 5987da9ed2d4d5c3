// The command `run-prepared`.
ghost use Rattle.std.specs.Prelude.{◌≡◌, [], true, IfErr, IsErrOf};
ghost use Rattle.dir_model.specs.Causes.{Rose};
ghost use Rattle.dir_model.specs.declared.intent.Intent.{Intent};
ghost use Rattle.dir_rules.specs.Standing.{is_run_prepared};
ghost use Rattle.dir_trait.specs.Local.{IsActive};
ghost use Rattle.dir_trait.specs.Effects.{OnlyAsks};
ghost use Rattle.command_outcomes.specs.Conforming.{StaysConforming};
ghost use Rattle.command_outcomes.specs.Moments.{inside_at};
ghost use Rattle.commands.specs.RunRefusals.{run_prepared_refusal};
ghost use Rattle.commands.specs.RunPrepared.{runs_prepared, CanClaim, RunPreparedSays};

use crate::run_refusals::claim_refusal;
use crate::running::run_owned;
use command_outcomes::{Output, Refusal, Told};
use dir_trait::{Dir, PodId};
use pod_locks::claim;
use spawner::Spawner;
use std::alloc::Global;

/// The lines that `run-prepared` prints, one of each app with its status, in the order of the pod's manifest, after the
/// last app has ended. The pod is claimed and moved to run, its apps are started there and waited for, and its own lock
/// is given up. `address` is that of the metadata service, which the apps find in their environment.
///
/// `NoPod`, `WrongPhase`, `NoManifest` and `PodBusy` where the pod isn't claimed: then it is as it was. `NoManifest`,
/// `Damaged` and `NoProgram` where a file of the pod is missing or has no reading, or an app's root has no program for
/// its word: then nothing is started, and the pod is exited. `SpawnFault`, `DirFault` and `Stray` at the first fault of
/// the spawner or of the directory: then each program that was started has been waited for.
pub fn run_prepared<D: Dir, S: Spawner>(
    alloc: Global,
    pod: PodId,
    address: &str,
    dir: &mut D,
    spawner: &mut S,
) -> Result<Told, Refusal>
    requires active { IsActive (D.shown dir.old).local }
    requires free { (D.shown dir.old).local.holdings ≡ [] }
    requires can { D.observed ≡ true → CanClaim (D.shown dir.old) }
    ensures worked { OnlyAsks D.observed (runs_prepared pod) (D.shown dir.old) (D.shown dir.new) }
    ensures cause { IsErrOf result Refusal.DirFault → Rose (D.shown dir.old).faults (D.shown dir.new).faults }
    ensures spawn_cause { IsErrOf result Refusal.SpawnFault → Rose (S.shown spawner.old).faults (S.shown spawner.new).faults }
    ensures refusals { IfErr result (λ r. run_prepared_refusal r ≡ true) }
    ensures known { D.observed ≡ true → (intent : Intent) → is_run_prepared intent.kind ≡ true → StaysConforming intent (D.shown dir.old) (D.shown dir.new) }
    ensures says { RunPreparedSays pod address.now (inside_at D.Dir S.Spawner dir.old spawner.old) (inside_at D.Dir S.Spawner dir.new spawner.new) result }
{
    match claim(alloc, dir, pod) {
        Ok(owned) => run_owned(alloc, Output::new(alloc), owned, address, dir, spawner),
        Err(error) => Err(claim_refusal(pod, error)),
    }
}
