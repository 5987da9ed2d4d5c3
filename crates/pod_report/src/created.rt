// When a pod was created, as the marks in its folder tell it.
ghost use Rattle.std.specs.Prelude.{◌≡◌, ◌≤◌, true, IfOk, IfErr, IsErrOf};
ghost use Rattle.dir_trait.specs.Areas.{rank};
ghost use Rattle.dir_trait.specs.Causes.{Rose};
ghost use Rattle.dir_trait.specs.Local.{IsActive};
ghost use Rattle.pod_report.specs.Created.{IsLatestCreation};
ghost use Rattle.pod_report.specs.Inspections.{TellsMarks};
ghost use Rattle.pod_report.specs.Outside.{IsReportFailure};
ghost use Rattle.pod_report.specs.Requests.{OnlyAsksFor, inspects};

use crate::error::{ReportError, read_fault};
use dir_files::items_of;
use dir_trait::{Area, Dir, DirError, Item, PodId, Spot};
use marks::{created_moment, later};
use std::alloc::Global;

fn greatest(items: &[Item]) -> Option<u64>
    ensures { IsLatestCreation items.now result }
{
    let mut found = None;
    'items: for item in items {
        found = later(found, created_moment(item.name.as_str().as_bytes()));
    }
    found
}

/// The greatest moment of the created- marks of the pod, where it stands in this area.
pub(crate) fn created_at<D: Dir>(
    alloc: Global,
    dir: &mut D,
    pod: PodId,
    area: Area,
) -> Result<Option<u64>, ReportError>
    requires active { IsActive (D.shown dir.old).local }
    requires stage { D.observed ≡ true → rank area ≤ 5 }
    ensures only { OnlyAsksFor D.observed (inspects pod) (D.shown dir.old) (D.shown dir.new) }
    ensures cause { IsErrOf result ReportError.DirFault → Rose (D.shown dir.old).faults (D.shown dir.new).faults }
    ensures kind { IfErr result IsReportFailure }
    ensures answer_holds { IfOk result (λ created. D.observed ≡ true
        → TellsMarks pod area created (D.shown dir.old).process (D.shown dir.old).trace (D.shown dir.new).trace) }
{
    match items_of(alloc, dir, Spot::of_pod(pod, area), "") {
        Ok(items) => Ok(greatest(items.as_slice())),
        Err(DirError::Missing) => Ok(None),
        Err(error) => Err(read_fault(error)),
    }
}
