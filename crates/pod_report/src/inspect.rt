// One round of a status: the pod is looked for, and its folder inspected where it is found.
ghost use Rattle.std.specs.Prelude.{◌≡◌, ◌≤◌, true, false, IfOk, IfErr, IsErrOf};
ghost use Rattle.dir_trait.specs.Areas.{rank};
ghost use Rattle.dir_trait.specs.Causes.{Rose};
ghost use Rattle.dir_trait.specs.Local.{IsActive, has_own_open};
ghost use Rattle.dir_trait.specs.Pods.{pod_text};
ghost use Rattle.lifecycle.specs.Executions.{IsConforming};
ghost use Rattle.pod_report.specs.Inspections.{moved_on, SeesAt, InspectionTells};
ghost use Rattle.pod_report.specs.Outside.{IsReportFailure};
ghost use Rattle.pod_report.specs.OwnReadings.{InspectionSees};
ghost use Rattle.pod_report.specs.Requests.{OnlyAsksFor, inspects};

use crate::created::created_at;
use crate::ends::ends_at;
use crate::error::{ReportError, look_fault};
use crate::sight::is_there;
use crate::status::PodStatus;
use ac_types::Sequence;
use dir_trait::{Area, Dir, Phase, PodId};
use phase_read::{Found, read_phase};
use std::alloc::Global;

/// How a round ended.
#[derive(Drop)]
pub(crate) enum Inspection {
    /// The pod doesn't exist.
    Gone,
    /// It was found, and wasn't there any more at the end.
    Missed,
    Met(PodStatus),
}

fn moved_on(area: Area) -> Inspection
    ensures { result ≡ moved_on area }
{
    match area {
        Area::Garbage => Inspection::Gone,
        _ => Inspection::Missed,
    }
}

// The status of the pod, where it stands in this area. A last look tells whether it stood there all the
// time: then what was missing in its folder was missing there.
fn see_status<D: Dir>(
    alloc: Global,
    dir: &mut D,
    pod: PodId,
    area: Area,
    phase: Phase,
) -> Result<Option<PodStatus>, ReportError>
    requires active { IsActive (D.shown dir.old).local }
    requires stage { D.observed ≡ true → rank area ≤ 5 }
    ensures only { OnlyAsksFor D.observed (inspects pod) (D.shown dir.old) (D.shown dir.new) }
    ensures cause { IsErrOf result ReportError.DirFault → Rose (D.shown dir.old).faults (D.shown dir.new).faults }
    ensures kind { IfErr result IsReportFailure }
    ensures seen { IfOk result (λ seen. D.observed ≡ true
        → SeesAt pod area phase seen (D.shown dir.old).process (D.shown dir.old).trace (D.shown dir.new).trace) }
{
    let created = created_at(alloc, dir, pod, area)?;
    let ends = ends_at(alloc, dir, pod, area)?;
    match is_there(alloc, dir, pod, area) {
        Ok(true) => Ok(Some(PodStatus {
            phase,
            created,
            ends: Sequence::from_vec(ends),
        })),
        Ok(false) => Ok(None),
        Err(error) => Err(error),
    }
}

/// Looks for the pod, and inspects its folder where it is found.
pub(crate) fn inspect<D: Dir>(
    alloc: Global,
    dir: &mut D,
    pod: PodId,
) -> Result<Inspection, ReportError>
    requires active { IsActive (D.shown dir.old).local }
    requires alone { has_own_open (D.shown dir.old).local (pod_text pod.bytes) ≡ false }
    ensures only { OnlyAsksFor D.observed (inspects pod) (D.shown dir.old) (D.shown dir.new) }
    ensures cause { IsErrOf result ReportError.DirFault → Rose (D.shown dir.old).faults (D.shown dir.new).faults }
    ensures kind { IfErr result IsReportFailure }
    ensures seen { IfOk result (λ round. D.observed ≡ true → InspectionSees pod round (D.shown dir.old) (D.shown dir.new)) }
    ensures round { IfOk result (λ round. D.observed ≡ true → IsConforming (D.shown dir.new).trace
        → InspectionTells pod round (D.shown dir.old) (D.shown dir.new)) }
{
    match read_phase(alloc, dir, pod) {
        Ok(Found::At(phase, area)) => match see_status(alloc, dir, pod, area, phase) {
            Ok(Some(status)) => Ok(Inspection::Met(status)),
            Ok(None) => Ok(moved_on(area)),
            Err(error) => Err(error),
        },
        Ok(Found::Gone) => Ok(Inspection::Gone),
        Err(error) => Err(look_fault(error)),
    }
}
