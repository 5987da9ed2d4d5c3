// The whole status of a pod.
ghost use Rattle.std.specs.Prelude.{◌≡◌, true, false, IfOk, IsErrOf};
ghost use Rattle.dir_trait.specs.Causes.{Rose};
ghost use Rattle.dir_trait.specs.Local.{IsActive, has_own_open};
ghost use Rattle.dir_trait.specs.Pods.{pod_text};
ghost use Rattle.lifecycle.specs.Executions.{IsConforming};
ghost use Rattle.phase_read.specs.Exact.{AtOwnEvent, IsNowhere};
ghost use Rattle.pod_report.specs.OwnReadings.{AnswersSeen};
ghost use Rattle.pod_report.specs.Requests.{OnlyAsksFor, inspects};
ghost use Rattle.pod_report.specs.Status.{IsStatusBetween, TellsQuietly};

use crate::ends::AppEnds;
use crate::error::ReportError;
use crate::inspect::{Inspection, inspect};
use dir_trait::{Dir, Phase, PodId};
use std::alloc::Global;

/// What is told of a pod.
#[derive(Drop)]
pub struct PodStatus {
    pub phase: Phase,
    /// The moment of its latest created- mark; none where it has no such mark.
    pub created: Option<u64>,
    /// How its apps ended, by name: each app whose status file is that of a status.
    pub ends: AppEnds,
}

/// The pod's status: its phase, when it was created, and how its apps ended. `NoPod` where there is no such
/// pod. Where it moved on meanwhile it is looked for again, six times at most; `Stray` where that wasn't
/// enough, which can't be where every process keeps the local rules. `DirFault` where the directory failed,
/// `NoMemory` where memory ran out. Whatever other processes do, the answer is what own looks, listings and
/// reads gave. Where every process keeps the local rules, the phase is the pod's at an own step, the created-
/// mark and each end stood at some moment of the call, a moment is told that isn't before a mark which stood
/// all the time, and no end is left out that did. Where nobody else steps, the answer is that of the state
/// before.
pub fn status_of<D: Dir>(alloc: Global, dir: &mut D, pod: PodId) -> Result<PodStatus, ReportError>
    requires active { IsActive (D.shown dir.old).local }
    requires alone { has_own_open (D.shown dir.old).local (pod_text pod.bytes) ≡ false }
    ensures only { OnlyAsksFor D.observed (inspects pod) (D.shown dir.old) (D.shown dir.new) }
    ensures cause { IsErrOf result ReportError.DirFault → Rose (D.shown dir.old).faults (D.shown dir.new).faults }
    ensures never { IsErrOf result ReportError.NoManifest → ⊥ }
    ensures seen { D.observed ≡ true → AnswersSeen pod result (D.shown dir.old) (D.shown dir.new) }
    ensures answer_holds { IfOk result (λ status. D.observed ≡ true → IsConforming (D.shown dir.new).trace
        → IsStatusBetween pod status (D.shown dir.old) (D.shown dir.new)) }
    ensures nowhere { IsErrOf result ReportError.NoPod → D.observed ≡ true → IsConforming (D.shown dir.new).trace
        → AtOwnEvent (D.shown dir.old).process (D.shown dir.old).trace (D.shown dir.new).trace (IsNowhere pod) }
    ensures quiet { D.observed ≡ true → IsConforming (D.shown dir.new).trace
        → TellsQuietly pod result (D.shown dir.old) (D.shown dir.new) }
    ensures stray { IsErrOf result ReportError.Stray → D.observed ≡ true → IsConforming (D.shown dir.new).trace → ⊥ }
{
    'rounds: for _round in 0..6u8 {
        match inspect(alloc, dir, pod) {
            Ok(Inspection::Missed) => {}
            Ok(Inspection::Met(status)) => return Ok(status),
            Ok(Inspection::Gone) => return Err(ReportError::NoPod),
            Err(error) => return Err(error),
        }
    }
    Err(ReportError::Stray)
}
