// The line of a pod.
ghost use Rattle.std.specs.Prelude.{◌≡◌, ◌≤◌, true, false, IfOk, IfErr, IsErrOf, map};
ghost use Rattle.dir_trait.specs.Causes.{Rose};
ghost use Rattle.dir_trait.specs.Local.{IsActive, has_own_open};
ghost use Rattle.dir_trait.specs.Pods.{pod_text};
ghost use Rattle.lifecycle.specs.Executions.{IsConforming};
ghost use Rattle.manifests.specs.declared.runtime_app.RuntimeApp.{RuntimeApp};
ghost use Rattle.pod_report.specs.Outside.{IsUnsaid};
ghost use Rattle.pod_report.specs.SeenLines.{LineSees};
ghost use Rattle.pod_report.specs.Requests.{OnlyAsksFor, visits};
ghost use Rattle.pod_report.specs.Snapshot.{names_told, LineTells};

use crate::error::ReportError;
use crate::visit::{Visit, visit_pod};
use ac_types::{AcName, Sequence};
use dir_trait::{Dir, Phase, PodId};
use manifests::{PodManifest, RuntimeApp};
use std::alloc::Global;

/// The names of a pod's apps. Contracts see a list of names.
pub type AppNames = Sequence<AcName>;

/// A line of the listing of pods.
#[derive(Drop)]
pub struct PodLine {
    pub pod: PodId,
    pub phase: Phase,
    /// The names of its apps; none where its manifest is missing or has no reading.
    pub apps: Option<AppNames>,
}

fn names_of(alloc: Global, apps: &[RuntimeApp]) -> Result<Vec<AcName>, ReportError>
    ensures names { IfOk result (λ names. names.items ≡ map (λ (a : RuntimeApp). a.name) apps.now) }
    ensures memory { IfErr result (λ e. e ≡ ReportError.NoMemory) }
{
    let mut names = Vec::new(alloc);
    'apps: for app in apps {
        let name = match app.name.copy() {
            Ok(name) => name,
            Err(_) => return Err(ReportError::NoMemory),
        };
        match names.push(name) {
            Ok(()) => {}
            Err(_) => return Err(ReportError::NoMemory),
        }
    }
    Ok(names)
}

fn names_in(alloc: Global, manifest: &Option<PodManifest>) -> Result<Option<AppNames>, ReportError>
    ensures names { IfOk result (λ names. names ≡ names_told manifest.now) }
    ensures memory { IfErr result (λ e. e ≡ ReportError.NoMemory) }
{
    match manifest {
        Some(manifest) => {
            let names = names_of(alloc, manifest.apps.as_slice())?;
            Ok(Some(Sequence::from_vec(names)))
        }
        None => Ok(None),
    }
}

fn line(alloc: Global, pod: PodId, visit: &Visit) -> Result<PodLine, ReportError>
    ensures line { IfOk result (λ line. line ≡ record { pod = pod; phase = visit.now.phase; apps = names_told visit.now.manifest }) }
    ensures memory { IfErr result (λ e. e ≡ ReportError.NoMemory) }
{
    let apps = names_in(alloc, &visit.manifest)?;
    Ok(PodLine {
        pod,
        phase: visit.phase,
        apps,
    })
}

/// The pod's line; none where the pod doesn't exist.
pub(crate) fn line_of<D: Dir>(
    alloc: Global,
    dir: &mut D,
    pod: PodId,
) -> Result<Option<PodLine>, ReportError>
    requires active { IsActive (D.shown dir.old).local }
    requires alone { has_own_open (D.shown dir.old).local (pod_text pod.bytes) ≡ false }
    ensures only { OnlyAsksFor D.observed (visits pod) (D.shown dir.old) (D.shown dir.new) }
    ensures cause { IsErrOf result ReportError.DirFault → Rose (D.shown dir.old).faults (D.shown dir.new).faults }
    ensures kind { IfErr result IsUnsaid }
    ensures seen { IfOk result (λ line. D.observed ≡ true → LineSees pod line (D.shown dir.old) (D.shown dir.new)) }
    ensures answer_holds { IfOk result (λ line. D.observed ≡ true → IsConforming (D.shown dir.new).trace
        → LineTells pod line (D.shown dir.old) (D.shown dir.new)) }
    ensures stray { IsErrOf result ReportError.Stray → D.observed ≡ true → IsConforming (D.shown dir.new).trace → ⊥ }
{
    match visit_pod(alloc, dir, pod) {
        Ok(Some(visit)) => match line(alloc, pod, &visit) {
            Ok(line) => Ok(Some(line)),
            Err(error) => Err(error),
        },
        Ok(None) => Ok(None),
        Err(error) => Err(error),
    }
}
