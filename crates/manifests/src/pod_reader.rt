//! The reading of pod manifests.
ghost use Rattle.std.specs.Prelude.{IfOk};
ghost use Rattle.serde_json.specs.View.{view};
ghost use Rattle.ac_types.specs.Outcomes.{Answers};
ghost use Rattle.manifests.specs.PodData.{pod_data};
ghost use Rattle.manifests.specs.PodForm.{pod_fields, pod_manifest};
ghost use Rattle.manifests.specs.ManifestRules.{IsPodManifest};

use crate::pod_manifest::PodManifest;
use ac_types::ReadError;
use app_section::list_of;
use manifest_parts::{
    distinct_list, read_object, required_distinct_list, required_kind, required_version,
};
use serde_json::Value;
use std::alloc::Global;

/// The pod manifest that some bytes are. Otherwise the first fault in the order of the format:
/// that of the document, then those of its fields; or `NoMemory`.
pub fn read_pod(alloc: Global, bytes: &[u8]) -> Result<PodManifest, ReadError>
    ensures pod { Answers pod_data (pod_manifest bytes.now) result }
    ensures kind { IfOk result (λ read. IsPodManifest (pod_data read)) }
{
    read_whole_pod(alloc, bytes)
}

#[tactic(auto, unfolding(crate::specs::PodForm::pod_manifest))]
fn read_whole_pod(alloc: Global, bytes: &[u8]) -> Result<PodManifest, ReadError>
    ensures { Answers pod_data (pod_manifest bytes.now) result }
{
    let value = read_object(alloc, bytes)?;
    required_kind(alloc, &value, "PodManifest")?;
    read_pod_fields(alloc, &value)
}

/// The fields that follow the kind.
#[tactic(auto, unfolding(crate::specs::PodForm::pod_fields))]
pub(crate) fn read_pod_fields(alloc: Global, value: &Value) -> Result<PodManifest, ReadError>
    ensures { Answers pod_data (pod_fields (view value.now)) result }
{
    let ac_version = required_version(alloc, value)?;
    let apps = required_distinct_list(alloc, value, "$", "apps")?;
    let volumes = distinct_list(alloc, value, "$", "volumes")?;
    let isolators = list_of(alloc, value, "$", "isolators")?;
    let annotations = list_of(alloc, value, "$", "annotations")?;
    let ports = list_of(alloc, value, "$", "ports")?;
    Ok(PodManifest {
        ac_version,
        apps,
        volumes,
        isolators,
        annotations,
        ports,
    })
}
