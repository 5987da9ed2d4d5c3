// A visit to a pod: its phase and its manifest.
ghost use Rattle.std.specs.Prelude.{◌≡◌, ◌≤◌, ◌+◌, true, false, IfOk, IfErr, IfSome, IsErrOf};
ghost use Rattle.dir_trait.specs.Causes.{Rose};
ghost use Rattle.dir_trait.specs.DirCalls.{HeldBetween};
ghost use Rattle.dir_trait.specs.Local.{IsActive, has_own_open};
ghost use Rattle.dir_trait.specs.Pods.{pod_text};
ghost use Rattle.lifecycle.specs.Executions.{IsConforming};
ghost use Rattle.manifests.specs.ManifestRules.{IsPodManifest};
ghost use Rattle.manifests.specs.PodData.{pod_data};
ghost use Rattle.phase_read.specs.Exact.{AtOwnEvent, IsNowhere};
ghost use Rattle.pod_report.specs.Before.{ReadsManifestQuietly};
ghost use Rattle.pod_report.specs.Manifests.{PodHasManifest, PodLacksManifest};
ghost use Rattle.pod_report.specs.Outside.{IsUnsaid};
ghost use Rattle.pod_report.specs.SeenManifests.{AnswersRead, VisitSees};
ghost use Rattle.pod_report.specs.Requests.{OnlyAsksFor, visits};
ghost use Rattle.pod_report.specs.Visits.{IsKnownVisit, VisitTells};

use crate::attempt::{Round, attempt};
use crate::error::ReportError;
use dir_trait::{Dir, Phase, PodId};
use manifests::PodManifest;
use std::alloc::Global;

/// A pod's phase, and its manifest if it has one that has a reading.
#[derive(Drop)]
pub(crate) struct Visit {
    pub phase: Phase,
    pub manifest: Option<PodManifest>,
}

/// Looks for the pod and reads its manifest, again where it moved on meanwhile: six times at most, since it
/// moves only forward through six areas. None where the pod doesn't exist. `Stray` where it was missed six
/// times, which can't be where every process keeps the local rules.
pub(crate) fn visit_pod<D: Dir>(
    alloc: Global,
    dir: &mut D,
    pod: PodId,
) -> Result<Option<Visit>, ReportError>
    requires active { IsActive (D.shown dir.old).local }
    requires alone { has_own_open (D.shown dir.old).local (pod_text pod.bytes) ≡ false }
    ensures counted { (D.shown dir.new).calls ≤ (D.shown dir.old).calls + 168 }
    ensures only { OnlyAsksFor D.observed (visits pod) (D.shown dir.old) (D.shown dir.new) }
    ensures cause { IsErrOf result ReportError.DirFault → Rose (D.shown dir.old).faults (D.shown dir.new).faults }
    ensures kind { IfErr result IsUnsaid }
    ensures seen { IfOk result (λ found. D.observed ≡ true → VisitSees pod found (D.shown dir.old) (D.shown dir.new)) }
    ensures answer_holds { IfOk result (λ found. D.observed ≡ true → IsConforming (D.shown dir.new).trace
        → VisitTells pod found (D.shown dir.old) (D.shown dir.new)) }
    ensures manifest { IfOk result (λ found. IfSome found IsKnownVisit) }
    ensures stray { IsErrOf result ReportError.Stray → D.observed ≡ true → IsConforming (D.shown dir.new).trace → ⊥ }
{
    'rounds: for _round in 0..6u8 {
        match attempt(alloc, dir, pod) {
            Ok(Round::Missed) => {}
            Ok(Round::Met(visit)) => return Ok(Some(visit)),
            Ok(Round::Gone) => return Ok(None),
            Err(error) => return Err(error),
        }
    }
    Err(ReportError::Stray)
}

/// The pod's manifest. `NoPod` where there is no such pod; `NoManifest` where its file `pod` is missing or
/// has no reading. Where the pod moved on meanwhile it is looked for again, six times at most; `Stray`
/// where that wasn't enough, which can't be where every process keeps the local rules. `DirFault` where
/// the directory failed, `NoMemory` where memory ran out. Whatever other processes do, the answer is what
/// own looks and reads gave. Where nobody else steps, the state before tells it.
pub fn manifest_of<D: Dir>(
    alloc: Global,
    dir: &mut D,
    pod: PodId,
) -> Result<PodManifest, ReportError>
    requires active { IsActive (D.shown dir.old).local }
    requires alone { has_own_open (D.shown dir.old).local (pod_text pod.bytes) ≡ false }
    ensures counted { (D.shown dir.new).calls ≤ (D.shown dir.old).calls + 168 }
    ensures only { OnlyAsksFor D.observed (visits pod) (D.shown dir.old) (D.shown dir.new) }
    ensures cause { IsErrOf result ReportError.DirFault → Rose (D.shown dir.old).faults (D.shown dir.new).faults }
    ensures seen { D.observed ≡ true → AnswersRead pod result (D.shown dir.old) (D.shown dir.new) }
    ensures read { IfOk result (λ manifest. D.observed ≡ true → IsConforming (D.shown dir.new).trace
        → HeldBetween (D.shown dir.old) (D.shown dir.new) (PodHasManifest pod (pod_data manifest))) }
    ensures kind { IfOk result (λ manifest. IsPodManifest (pod_data manifest)) }
    ensures nowhere { IsErrOf result ReportError.NoPod → D.observed ≡ true → IsConforming (D.shown dir.new).trace
        → AtOwnEvent (D.shown dir.old).process (D.shown dir.old).trace (D.shown dir.new).trace (IsNowhere pod) }
    ensures lacking { IsErrOf result ReportError.NoManifest → D.observed ≡ true → IsConforming (D.shown dir.new).trace
        → HeldBetween (D.shown dir.old) (D.shown dir.new) (PodLacksManifest pod) }
    ensures quiet { D.observed ≡ true → IsConforming (D.shown dir.new).trace
        → ReadsManifestQuietly pod result (D.shown dir.old) (D.shown dir.new) }
    ensures stray { IsErrOf result ReportError.Stray → D.observed ≡ true → IsConforming (D.shown dir.new).trace → ⊥ }
{
    match visit_pod(alloc, dir, pod) {
        Ok(Some(visit)) => match visit.manifest {
            Some(manifest) => Ok(manifest),
            None => Err(ReportError::NoManifest),
        },
        Ok(None) => Err(ReportError::NoPod),
        Err(error) => Err(error),
    }
}
