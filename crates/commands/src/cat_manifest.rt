// The command `cat-manifest`.
ghost use Rattle.std.specs.Prelude.{◌≡◌, ◌⊎◌, true, false, Ok, Err, IfErr, IfOk, IsErrOf};
ghost use Rattle.dir_trait.specs.Causes.{Rose};
ghost use Rattle.dir_trait.specs.Local.{IsActive, has_own_open};
ghost use Rattle.dir_trait.specs.Pods.{pod_text};
ghost use Rattle.manifests.specs.ManifestRules.{IsPodManifest};
ghost use Rattle.manifests.specs.PodData.{pod_data};
ghost use Rattle.pod_report.specs.Requests.{OnlyAsksFor, visits};
ghost use Rattle.commands.specs.CatManifest.{cat_manifest_refusal, cat_manifest_report, manifest_line, unread_refusal};
ghost use Rattle.commands.specs.Report.{ReportSays};

use ac_types::NoMemory;
use command_outcomes::{Output, Refusal};
use dir_trait::{Dir, PodId};
use manifests::PodManifest;
use pod_report::{ReportError, manifest_of, manifest_text};
use std::alloc::Global;

fn manifest_line(alloc: Global, manifest: &PodManifest) -> Result<Output, NoMemory>
    requires { IsPodManifest (pod_data manifest.now) }
    ensures { IfOk result (λ line. line ≡ manifest_line (pod_data manifest.now)) }
{
    let text = manifest_text(alloc, manifest)?;
    let mut line = Output::of(alloc, text.as_str())?;
    line.push("\n")?;
    Ok(line)
}

fn unread_refusal(pod: PodId, error: ReportError) -> Refusal
    ensures { result ≡ unread_refusal pod error }
{
    match error {
        ReportError::NoPod => Refusal::NoPod,
        ReportError::NoManifest => Refusal::NoManifest(pod),
        ReportError::DirFault => Refusal::DirFault,
        ReportError::Stray => Refusal::Stray,
        ReportError::NoMemory => Refusal::NoMemory,
    }
}

// What comes of the manifest.
fn written(
    alloc: Global,
    pod: PodId,
    found: Result<PodManifest, ReportError>,
) -> Result<Output, Refusal>
    requires { IfOk found (λ manifest. IsPodManifest (pod_data manifest)) }
    ensures writes { IfOk found (λ manifest. (result ≡ Ok (manifest_line (pod_data manifest))) ⊎ (result ≡ Err Refusal.NoMemory)) }
    ensures refuses { IfErr found (λ error. result ≡ Err (unread_refusal pod error)) }
{
    match found {
        Ok(manifest) => match manifest_line(alloc, &manifest) {
            Ok(line) => Ok(line),
            Err(_) => Err(Refusal::NoMemory),
        },
        Err(error) => Err(unread_refusal(pod, error)),
    }
}

/// The line that `cat-manifest` prints: the pod's manifest, as JSON without spaces. No handle of this
/// process is open on the pod's lock before. `NoPod` where there is no such pod, `NoManifest` where its
/// manifest is missing or has no reading, `DirFault` where the directory failed; `Stray` where its answers
/// contradict each other, which can't be where every process keeps the local rules.
pub fn cat_manifest<D: Dir>(alloc: Global, pod: PodId, dir: &mut D) -> Result<Output, Refusal>
    requires active { IsActive (D.shown dir.old).local }
    requires alone { has_own_open (D.shown dir.old).local (pod_text pod.bytes) ≡ false }
    ensures only { OnlyAsksFor D.observed (visits pod) (D.shown dir.old) (D.shown dir.new) }
    ensures cause { IsErrOf result Refusal.DirFault → Rose (D.shown dir.old).faults (D.shown dir.new).faults }
    ensures refusals { IfErr result (λ r. cat_manifest_refusal r ≡ true) }
    ensures says { ReportSays D.observed (cat_manifest_report pod) (D.shown dir.old) (D.shown dir.new) result }
{
    let found = manifest_of(alloc, dir, pod);
    written(alloc, pod, found)
}
