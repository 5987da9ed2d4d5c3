// The manifest of a pod at one place.
ghost use Rattle.std.specs.Prelude.{◌≡◌, ◌≤◌, ◌+◌, true, IfOk, IfErr, IsErrOf};
ghost use Rattle.dir_trait.specs.Areas.{rank};
ghost use Rattle.dir_trait.specs.Causes.{Rose};
ghost use Rattle.dir_trait.specs.DirCalls.{HeldBetween};
ghost use Rattle.dir_trait.specs.Local.{IsActive};
ghost use Rattle.dir_trait.specs.State.{stands};
ghost use Rattle.dir_model.specs.Spots.{pod_spot};
ghost use Rattle.pod_report.specs.Outside.{IsReportFailure};
ghost use Rattle.pod_report.specs.Requests.{OnlyAsksFor, visits};
ghost use Rattle.pod_report.specs.Sights.{IsKnownSight, IsSightOf, SeesNoFile, Sees};

use crate::error::{ReportError, look_fault};
use crate::whole::read_whole;
use ac_types::ReadError;
use dir_trait::{Area, Dir, PodId, Spot};
use manifests::{MOST_OF_MANIFEST, PodManifest, read_pod};
use phase_read::look;
use std::alloc::Global;

/// What is seen of a pod's manifest at one place.
#[derive(Drop)]
pub(crate) enum Sight {
    /// The pod isn't there any more.
    Moved,
    /// It is there, and its manifest is missing or has no reading.
    Lacking,
    Manifest(PodManifest),
}

// The manifest that the bytes are.
fn sight_of(alloc: Global, bytes: &[u8]) -> Result<Sight, ReportError>
    ensures seen { IfOk result (IsSightOf bytes.now) }
    ensures manifest { IfOk result IsKnownSight }
    ensures memory { IfErr result (λ e. e ≡ ReportError.NoMemory) }
{
    match read_pod(alloc, bytes) {
        Ok(manifest) => Ok(Sight::Manifest(manifest)),
        Err(ReadError::Bad(_)) => Ok(Sight::Lacking),
        Err(ReadError::NoMemory) => Err(ReportError::NoMemory),
    }
}

/// Whether the pod is there still.
pub(crate) fn is_there<D: Dir>(
    alloc: Global,
    dir: &mut D,
    pod: PodId,
    area: Area,
) -> Result<bool, ReportError>
    requires active { IsActive (D.shown dir.old).local }
    requires stage { D.observed ≡ true → rank area ≤ 5 }
    ensures counted { (D.shown dir.new).calls ≤ (D.shown dir.old).calls + 2 }
    ensures only { OnlyAsksFor D.observed (visits pod) (D.shown dir.old) (D.shown dir.new) }
    ensures cause { IsErrOf result ReportError.DirFault → Rose (D.shown dir.old).faults (D.shown dir.new).faults }
    ensures kind { IfErr result IsReportFailure }
    ensures there { IfOk result (λ there. D.observed ≡ true
        → HeldBetween (D.shown dir.old) (D.shown dir.new) (λ s. stands s.namespace (pod_spot pod area) ≡ there)) }
{
    match look(alloc, dir, Spot::of_pod(pod, area)) {
        Ok(there) => Ok(there),
        Err(error) => Err(look_fault(error)),
    }
}

fn sight_missing<D: Dir>(
    alloc: Global,
    dir: &mut D,
    pod: PodId,
    area: Area,
) -> Result<Sight, ReportError>
    requires active { IsActive (D.shown dir.old).local }
    requires stage { D.observed ≡ true → rank area ≤ 5 }
    ensures counted { (D.shown dir.new).calls ≤ (D.shown dir.old).calls + 2 }
    ensures only { OnlyAsksFor D.observed (visits pod) (D.shown dir.old) (D.shown dir.new) }
    ensures cause { IsErrOf result ReportError.DirFault → Rose (D.shown dir.old).faults (D.shown dir.new).faults }
    ensures kind { IfErr result IsReportFailure }
    ensures seen { IfOk result (λ sight. D.observed ≡ true → SeesNoFile pod area sight (D.shown dir.old) (D.shown dir.new)) }
    ensures manifest { IfOk result IsKnownSight }
{
    if is_there(alloc, dir, pod, area)? {
        Ok(Sight::Lacking)
    } else {
        Ok(Sight::Moved)
    }
}

/// The manifest of the pod, where it stands in this area.
pub(crate) fn see_manifest<D: Dir>(
    alloc: Global,
    dir: &mut D,
    pod: PodId,
    area: Area,
) -> Result<Sight, ReportError>
    requires active { IsActive (D.shown dir.old).local }
    requires stage { D.observed ≡ true → rank area ≤ 5 }
    ensures counted { (D.shown dir.new).calls ≤ (D.shown dir.old).calls + 4 }
    ensures only { OnlyAsksFor D.observed (visits pod) (D.shown dir.old) (D.shown dir.new) }
    ensures cause { IsErrOf result ReportError.DirFault → Rose (D.shown dir.old).faults (D.shown dir.new).faults }
    ensures kind { IfErr result IsReportFailure }
    ensures seen { IfOk result (λ sight. D.observed ≡ true → Sees pod area sight (D.shown dir.old) (D.shown dir.new)) }
    ensures manifest { IfOk result IsKnownSight }
{
    match read_whole(alloc, dir, Spot::of_pod(pod, area), "pod", MOST_OF_MANIFEST) {
        Ok(Some(bytes)) => sight_of(alloc, &bytes),
        Ok(None) => sight_missing(alloc, dir, pod, area),
        Err(error) => Err(error),
    }
}
