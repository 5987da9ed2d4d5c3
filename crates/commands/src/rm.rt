// The command `rm`.
ghost use Rattle.std.specs.Prelude.{◌≡◌, true, false, IfOk, IfErr, IsErrOf};
ghost use Rattle.dir_model.specs.Causes.{Rose};
ghost use Rattle.dir_trait.specs.Local.{IsActive, has_own_open};
ghost use Rattle.dir_trait.specs.Pods.{pod_text};
ghost use Rattle.dir_trait.specs.Effects.{OnlyAsks, Given};
ghost use Rattle.pod_locks.specs.Holding.{KeepsReady};
ghost use Rattle.pod_gc.specs.RemovalHolding.{MayRemovePod};
ghost use Rattle.pod_gc.specs.RemovalRequests.{removes};
ghost use Rattle.commands.specs.Kept.{KeepsRefused};
ghost use Rattle.commands.specs.Rm.{removed_pod_text, remove_refusal, rm_refusal, RmSays, WhereRemovingPod, FailsAlone};

use ac_types::NoMemory;
use command_outcomes::{Output, Refusal};
use dir_trait::{Dir, PodId};
use pod_gc::{RemoveError, remove_pod};
use std::alloc::Global;

fn removed_line(alloc: Global, pod: PodId) -> Result<Output, NoMemory>
    ensures { IfOk result (λ line. line ≡ removed_pod_text pod) }
{
    let name = pod.name();
    let mut line = Output::of(alloc, "removed ")?;
    line.push(name.as_str())?;
    line.push("\n")?;
    Ok(line)
}

fn remove_refusal(pod: PodId, error: RemoveError) -> Refusal
    ensures { result ≡ remove_refusal pod error }
{
    match error {
        RemoveError::NoPod => Refusal::NoPod,
        RemoveError::WrongPhase(phase) => Refusal::WrongPhase(phase),
        RemoveError::NoManifest => Refusal::NoManifest(pod),
        RemoveError::Busy(other, which) => Refusal::PodBusy(other, which),
        RemoveError::DirFault => Refusal::DirFault,
        RemoveError::Stray => Refusal::Stray,
        RemoveError::NoMemory => Refusal::NoMemory,
    }
}

// The removal, of which this line is printed.
fn remove_saying<D: Dir>(
    alloc: Global,
    line: Output,
    pod: PodId,
    now: u64,
    dir: &mut D,
) -> Result<Output, Refusal>
    requires active { IsActive (D.shown dir.old).local }
    requires alone { has_own_open (D.shown dir.old).local (pod_text pod.bytes) ≡ false }
    requires line { line ≡ removed_pod_text pod }
    ensures worked { OnlyAsks D.observed (removes pod now) (D.shown dir.old) (D.shown dir.new) }
    ensures cause { IsErrOf result Refusal.DirFault → Rose (D.shown dir.old).faults (D.shown dir.new).faults }
    ensures refusals { IfErr result (λ r. rm_refusal r ≡ true) }
    ensures ready { D.observed ≡ true → Given (MayRemovePod pod now) (D.shown dir.old) (λ s. KeepsReady s (D.shown dir.new)) }
    ensures says { RmSays D.observed pod now (D.shown dir.old) (D.shown dir.new) result }
    ensures kept { KeepsRefused D.observed (D.shown dir.old) (D.shown dir.new) result }
{
    match remove_pod(alloc, dir, pod, now) {
        Ok(()) => Ok(line),
        Err(error) => Err(remove_refusal(pod, error)),
    }
}

/// The line that `rm` prints: that the pod is removed. One that nobody makes or runs is moved to a garbage place, an
/// exited one with a mark of the moment `now`, and deleted there.
///
/// `NoPod` where there is none. `WrongPhase` where it is an embryo, or another process makes, runs or deletes it.
/// `NoManifest` where it stands in prepared without the file `pod`. `PodBusy` where another process holds one of its
/// locks. `Stray` where the directory's answers contradict each other or what a lock keeps, as where a program that
/// outlived its pod still writes there; `DirFault` where it failed. Then the pod is whole or in a garbage place, and no
/// folder was removed.
pub fn rm<D: Dir>(alloc: Global, pod: PodId, now: u64, dir: &mut D) -> Result<Output, Refusal>
    requires active { IsActive (D.shown dir.old).local }
    requires alone { has_own_open (D.shown dir.old).local (pod_text pod.bytes) ≡ false }
    ensures worked { OnlyAsks D.observed (removes pod now) (D.shown dir.old) (D.shown dir.new) }
    ensures cause { IsErrOf result Refusal.DirFault → Rose (D.shown dir.old).faults (D.shown dir.new).faults }
    ensures refusals { IfErr result (λ r. rm_refusal r ≡ true) }
    ensures ready { D.observed ≡ true → Given (MayRemovePod pod now) (D.shown dir.old) (λ s. KeepsReady s (D.shown dir.new)) }
    ensures says { RmSays D.observed pod now (D.shown dir.old) (D.shown dir.new) result }
    ensures kept { KeepsRefused D.observed (D.shown dir.old) (D.shown dir.new) result }
    ensures complete { IfErr result (λ r. WhereRemovingPod D.observed pod now (D.shown dir.old) (FailsAlone pod (D.shown dir.old) (D.shown dir.new) r)) }
{
    // Made first: a pod that is gone can't be said to be removed where there is no memory for the line.
    match removed_line(alloc, pod) {
        Ok(line) => remove_saying(alloc, line, pod, now, dir),
        Err(_) => Err(Refusal::NoMemory),
    }
}
