// One round of a visit: the pod is looked for, and its manifest read where it is found.
ghost use Rattle.std.specs.Prelude.{◌≡◌, ◌≤◌, ◌+◌, true, false, IfOk, IfErr, IsErrOf};
ghost use Rattle.dir_trait.specs.Causes.{Rose};
ghost use Rattle.dir_trait.specs.Local.{IsActive, has_own_open};
ghost use Rattle.dir_trait.specs.Pods.{pod_text};
ghost use Rattle.lifecycle.specs.Executions.{IsConforming};
ghost use Rattle.pod_report.specs.Outside.{IsReportFailure};
ghost use Rattle.pod_report.specs.SeenManifests.{RoundSees};
ghost use Rattle.pod_report.specs.Requests.{OnlyAsksFor, visits};
ghost use Rattle.pod_report.specs.Rounds.{IsKnownRound, moved_from, report_round_of, RoundTells};

use crate::error::{ReportError, look_fault};
use crate::sight::{Sight, see_manifest};
use crate::visit::Visit;
use dir_trait::{Area, Dir, Phase, PodId};
use phase_read::{Found, read_phase};
use std::alloc::Global;

/// How a round ended.
#[derive(Drop)]
pub(crate) enum Round {
    /// The pod doesn't exist.
    Gone,
    /// It was found, and wasn't there any more when its manifest was read.
    Missed,
    Met(Visit),
}

fn moved_from(area: Area) -> Round
    ensures { result ≡ moved_from area }
{
    match area {
        Area::Garbage => Round::Gone,
        _ => Round::Missed,
    }
}

fn round_of(phase: Phase, area: Area, sight: Sight) -> Round
    ensures { result ≡ report_round_of phase area sight }
{
    match sight {
        Sight::Manifest(found) => Round::Met(Visit {
            phase,
            manifest: Some(found),
        }),
        Sight::Lacking => Round::Met(Visit {
            phase,
            manifest: None,
        }),
        Sight::Moved => moved_from(area),
    }
}

/// Looks for the pod, and reads its manifest where it is found.
pub(crate) fn attempt<D: Dir>(alloc: Global, dir: &mut D, pod: PodId) -> Result<Round, ReportError>
    requires active { IsActive (D.shown dir.old).local }
    requires alone { has_own_open (D.shown dir.old).local (pod_text pod.bytes) ≡ false }
    ensures counted { (D.shown dir.new).calls ≤ (D.shown dir.old).calls + 28 }
    ensures only { OnlyAsksFor D.observed (visits pod) (D.shown dir.old) (D.shown dir.new) }
    ensures cause { IsErrOf result ReportError.DirFault → Rose (D.shown dir.old).faults (D.shown dir.new).faults }
    ensures kind { IfErr result IsReportFailure }
    ensures seen { IfOk result (λ round. D.observed ≡ true → RoundSees pod round (D.shown dir.old) (D.shown dir.new)) }
    ensures round { IfOk result (λ round. D.observed ≡ true → IsConforming (D.shown dir.new).trace
        → RoundTells pod round (D.shown dir.old) (D.shown dir.new)) }
    ensures manifest { IfOk result IsKnownRound }
{
    match read_phase(alloc, dir, pod) {
        Ok(Found::At(phase, area)) => match see_manifest(alloc, dir, pod, area) {
            Ok(sight) => Ok(round_of(phase, area, sight)),
            Err(error) => Err(error),
        },
        Ok(Found::Gone) => Ok(Round::Gone),
        Err(error) => Err(look_fault(error)),
    }
}
