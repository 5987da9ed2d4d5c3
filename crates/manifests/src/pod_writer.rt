//! A pod manifest as it is written.
ghost use Rattle.std.specs.Prelude.{◌≡◌, IfOk, IsUtf8};
ghost use Rattle.serde_json.specs.Data.{no_members};
ghost use Rattle.serde_json.specs.View.{view};
ghost use Rattle.serde_json.specs.Written.{compact_text};
ghost use Rattle.ac_types.specs.Outcomes.{reads};
ghost use Rattle.app_section.specs.Objects.{built, put_all};
ghost use Rattle.manifests.specs.PodData.{pod_data};
ghost use Rattle.manifests.specs.PodForm.{pod_manifest};
ghost use Rattle.manifests.specs.ManifestRules.{IsPodManifest};
ghost use Rattle.manifests.specs.PodObject.{first_pod_members, last_pod_members, pod_object};
ghost use Rattle.manifests.specs.WrittenTexts.{IsCompactText, KeepsLimits};

use crate::PodManifest;
use crate::document_text::document_bytes;
use crate::lists::{each_written, with_list};
use ac_types::NoMemory;
use app_section::{ObjectBuilder, with_isolators};
use serde_json::Value;
use std::alloc::Global;

/// The bytes of a pod manifest: the text of its object, without spaces. Reading the bytes of
/// what is a manifest gives it again, where they keep the limits of a document.
pub fn pod_bytes(alloc: Global, manifest: &PodManifest) -> Result<Vec<u8>, NoMemory>
    ensures text { IfOk result (λ bytes. IsCompactText (pod_object (pod_data manifest.now)) bytes.items) }
    ensures text_of_manifest { IfOk result (λ bytes. IsPodManifest (pod_data manifest.now)
        → bytes.items ≡ compact_text (pod_object (pod_data manifest.now))) }
    ensures utf8 { IfOk result (λ bytes. IsUtf8 bytes.items) }
    ensures reads_back { IfOk result (λ bytes. IsPodManifest (pod_data manifest.now)
        → KeepsLimits (pod_object (pod_data manifest.now)) bytes.items
        → pod_manifest bytes.items ≡ reads (pod_data manifest.now)) }
{
    let value = pod_value(alloc, manifest)?;
    document_bytes(alloc, &value)
}

fn pod_value(alloc: Global, manifest: &PodManifest) -> Result<Value, NoMemory>
    ensures { IfOk result (λ v. view v ≡ pod_object (pod_data manifest.now)) }
{
    let object = with_first_fields(alloc, manifest)?;
    let object = with_last_fields(alloc, manifest, object)?;
    Ok(object.finish())
}

fn with_first_fields(alloc: Global, manifest: &PodManifest) -> Result<ObjectBuilder, NoMemory>
    ensures { IfOk result (λ b. built b ≡ put_all (first_pod_members (pod_data manifest.now)) no_members) }
{
    let object = ObjectBuilder::new(alloc);
    let object = object.text(alloc, "acKind", "PodManifest")?;
    let object = object.text(alloc, "acVersion", manifest.ac_version.as_str())?;
    let object = with_list(
        alloc,
        object,
        "annotations",
        manifest.annotations.as_slice(),
    )?;
    let apps = Value::Array(each_written(alloc, manifest.apps.as_slice())?);
    object.json(alloc, "apps", apps)
}

fn with_last_fields(
    alloc: Global,
    manifest: &PodManifest,
    object: ObjectBuilder,
) -> Result<ObjectBuilder, NoMemory>
    ensures { IfOk result (λ b. built b ≡ put_all (last_pod_members (pod_data manifest.now)) (built object)) }
{
    let object = with_isolators(alloc, manifest.isolators.as_slice(), object)?;
    let object = with_list(alloc, object, "ports", manifest.ports.as_slice())?;
    with_list(alloc, object, "volumes", manifest.volumes.as_slice())
}
