// How the apps of a pod ended, as their status files tell it.
ghost use Rattle.std.specs.Prelude.{◌≡◌, ◌≤◌, ◌++◌, ◌∷◌, [], ℕ, List, true, IfOk, IfErr, IsErrOf, string_bytes};
ghost use Rattle.dir_trait.specs.Areas.{rank};
ghost use Rattle.dir_trait.specs.Causes.{Rose};
ghost use Rattle.dir_trait.specs.Listings.{item_names};
ghost use Rattle.dir_trait.specs.Local.{IsActive};
ghost use Rattle.dir_trait.specs.Paths.{is_path};
ghost use Rattle.pod_report.specs.Ends.{status_path};
ghost use Rattle.pod_report.specs.Inspections.{AddsAppEnd, TellsEnd, TellsEachEnd, TellsEnds};
ghost use Rattle.pod_report.specs.Outside.{IsReportFailure};
ghost use Rattle.pod_report.specs.Requests.{OnlyAsksFor, inspects};

use crate::digits::status_in;
use crate::error::{ReportError, read_fault};
use crate::whole::read_whole;
use ac_types::Sequence;
use dir_files::items_of;
use dir_trait::{Area, Dir, DirError, FileName, Item, PodId, Spot};
use std::alloc::{AllocError, Global};

// One byte more than the longest text of a status has, so that a longer one is told from it.
const MOST: usize = 5;

/// How an app ended, as its status file tells it.
#[derive(Drop)]
pub struct AppEndText {
    pub app: FileName,
    pub status: u8,
}

/// How apps ended. Contracts see a list.
pub type AppEnds = Sequence<AppEndText>;

// The path of the file of an app's status.
fn status_path(alloc: Global, app: &str) -> Result<String, AllocError>
    ensures { IfOk result (λ path. string_bytes path ≡ status_path app.now) }
{
    let mut path = String::from_str(alloc, "stage1/rootfs/rkt/status/")?;
    path.push_str(app)?;
    Ok(path)
}

// The status that the file at the path tells.
fn end_at<D: Dir>(
    alloc: Global,
    dir: &mut D,
    pod: PodId,
    area: Area,
    path: &str,
) -> Result<Option<u8>, ReportError>
    requires active { IsActive (D.shown dir.old).local }
    requires stage { D.observed ≡ true → rank area ≤ 5 }
    requires path { is_path path.now ≡ true }
    ensures only { OnlyAsksFor D.observed (inspects pod) (D.shown dir.old) (D.shown dir.new) }
    ensures cause { IsErrOf result ReportError.DirFault → Rose (D.shown dir.old).faults (D.shown dir.new).faults }
    ensures kind { IfErr result IsReportFailure }
    ensures answer_holds { IfOk result (λ status. D.observed ≡ true → (app : List ℕ) → path.now ≡ status_path app
        → TellsEnd pod area app status (D.shown dir.old).process (D.shown dir.old).trace (D.shown dir.new).trace) }
{
    match read_whole(alloc, dir, Spot::of_pod(pod, area), path, MOST) {
        Ok(Some(bytes)) => status_in(alloc, &bytes),
        Ok(None) => Ok(None),
        Err(error) => Err(error),
    }
}

// The status with which the app of this name ended.
fn end_of<D: Dir>(
    alloc: Global,
    dir: &mut D,
    pod: PodId,
    area: Area,
    app: &FileName,
) -> Result<Option<u8>, ReportError>
    requires active { IsActive (D.shown dir.old).local }
    requires stage { D.observed ≡ true → rank area ≤ 5 }
    ensures only { OnlyAsksFor D.observed (inspects pod) (D.shown dir.old) (D.shown dir.new) }
    ensures cause { IsErrOf result ReportError.DirFault → Rose (D.shown dir.old).faults (D.shown dir.new).faults }
    ensures kind { IfErr result IsReportFailure }
    ensures answer_holds { IfOk result (λ status. D.observed ≡ true
        → TellsEnd pod area app.now status (D.shown dir.old).process (D.shown dir.old).trace (D.shown dir.new).trace) }
{
    match status_path(alloc, app.as_str()) {
        Ok(path) => end_at(alloc, dir, pod, area, path.as_str()),
        Err(_) => Err(ReportError::NoMemory),
    }
}

fn push(ends: &mut Vec<AppEndText>, app: FileName, status: u8) -> Result<(), ReportError>
    ensures items { IfOk result (λ done. ends.new.items ≡ ends.old.items ++ record { app = app; status = status } ∷ []) }
    ensures memory { IfErr result (λ e. e ≡ ReportError.NoMemory) }
{
    match ends.push(AppEndText { app, status }) {
        Ok(()) => Ok(()),
        Err(_) => Err(ReportError::NoMemory),
    }
}

// Adds the app's end, where its file tells it.
fn add_end<D: Dir>(
    alloc: Global,
    dir: &mut D,
    pod: PodId,
    area: Area,
    app: &FileName,
    ends: &mut Vec<AppEndText>,
) -> Result<(), ReportError>
    requires active { IsActive (D.shown dir.old).local }
    requires stage { D.observed ≡ true → rank area ≤ 5 }
    ensures only { OnlyAsksFor D.observed (inspects pod) (D.shown dir.old) (D.shown dir.new) }
    ensures cause { IsErrOf result ReportError.DirFault → Rose (D.shown dir.old).faults (D.shown dir.new).faults }
    ensures kind { IfErr result IsReportFailure }
    ensures answer_holds { IfOk result (λ done. D.observed ≡ true
        → AddsAppEnd pod area app.now ends.old.items ends.new.items (D.shown dir.old).process (D.shown dir.old).trace (D.shown dir.new).trace) }
{
    match end_of(alloc, dir, pod, area, app) {
        Ok(Some(status)) => push(ends, *app, status),
        Ok(None) => Ok(()),
        Err(error) => Err(error),
    }
}

// The ends of the apps of these names.
fn ends_of<D: Dir>(
    alloc: Global,
    dir: &mut D,
    pod: PodId,
    area: Area,
    items: &[Item],
) -> Result<Vec<AppEndText>, ReportError>
    requires active { IsActive (D.shown dir.old).local }
    requires stage { D.observed ≡ true → rank area ≤ 5 }
    ensures only { OnlyAsksFor D.observed (inspects pod) (D.shown dir.old) (D.shown dir.new) }
    ensures cause { IsErrOf result ReportError.DirFault → Rose (D.shown dir.old).faults (D.shown dir.new).faults }
    ensures kind { IfErr result IsReportFailure }
    ensures answer_holds { IfOk result (λ ends. D.observed ≡ true
        → TellsEachEnd pod area (item_names items.now) ends.items (D.shown dir.old).process (D.shown dir.old).trace (D.shown dir.new).trace) }
{
    let mut ends = Vec::new(alloc);
    'items: for item in items {
        add_end(alloc, dir, pod, area, &item.name, &mut ends)?;
    }
    Ok(ends)
}

/// How the pod's apps ended, by the status files where it stands in this area.
pub(crate) fn ends_at<D: Dir>(
    alloc: Global,
    dir: &mut D,
    pod: PodId,
    area: Area,
) -> Result<Vec<AppEndText>, ReportError>
    requires active { IsActive (D.shown dir.old).local }
    requires stage { D.observed ≡ true → rank area ≤ 5 }
    ensures only { OnlyAsksFor D.observed (inspects pod) (D.shown dir.old) (D.shown dir.new) }
    ensures cause { IsErrOf result ReportError.DirFault → Rose (D.shown dir.old).faults (D.shown dir.new).faults }
    ensures kind { IfErr result IsReportFailure }
    ensures answer_holds { IfOk result (λ ends. D.observed ≡ true
        → TellsEnds pod area ends.items (D.shown dir.old).process (D.shown dir.old).trace (D.shown dir.new).trace) }
{
    match items_of(
        alloc,
        dir,
        Spot::of_pod(pod, area),
        "stage1/rootfs/rkt/status",
    ) {
        Ok(items) => ends_of(alloc, dir, pod, area, items.as_slice()),
        Err(DirError::Missing) => Ok(Vec::new(alloc)),
        Err(error) => Err(read_fault(error)),
    }
}
