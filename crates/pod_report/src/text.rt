// A pod's manifest as it is printed.
ghost use Rattle.std.specs.Prelude.{◌≡◌, IfOk, string_bytes};
ghost use Rattle.manifests.specs.ManifestRules.{IsPodManifest};
ghost use Rattle.manifests.specs.PodData.{pod_data};
ghost use Rattle.pod_report.specs.ManifestText.{manifest_text};

use ac_types::NoMemory;
use manifests::{PodManifest, pod_bytes};
use std::alloc::Global;

/// The text of a pod's manifest: its JSON without spaces. Refused only where memory ran out.
#[tactic(auto, unfolding(crate::specs::ManifestText::manifest_text))]
pub fn manifest_text(alloc: Global, manifest: &PodManifest) -> Result<String, NoMemory>
    requires { IsPodManifest (pod_data manifest.now) }
    ensures { IfOk result (λ text. string_bytes text ≡ manifest_text (pod_data manifest.now)) }
{
    let bytes = pod_bytes(alloc, manifest)?;
    match String::from_utf8(bytes) {
        Ok(text) => Ok(text),
        Err(_) => unreachable!(),
    }
}
