//! An image manifest as it is written.
ghost use Rattle.std.specs.Prelude.{◌≡◌, IfOk, IsUtf8};
ghost use Rattle.serde_json.specs.Data.{no_members};
ghost use Rattle.serde_json.specs.View.{view};
ghost use Rattle.serde_json.specs.Written.{compact_text};
ghost use Rattle.ac_types.specs.Outcomes.{reads};
ghost use Rattle.app_section.specs.Objects.{built, put_all};
ghost use Rattle.manifests.specs.ImageData.{image_data};
ghost use Rattle.manifests.specs.ImageForm.{image_manifest};
ghost use Rattle.manifests.specs.ManifestRules.{IsImageManifest};
ghost use Rattle.manifests.specs.ImageObject.{first_image_members, last_image_members, image_object};
ghost use Rattle.manifests.specs.WrittenTexts.{IsCompactText, KeepsLimits};

use crate::ImageManifest;
use crate::document_text::document_bytes;
use crate::lists::with_list;
use crate::optional_fields::with_app;
use ac_types::NoMemory;
use app_section::ObjectBuilder;
use serde_json::Value;
use std::alloc::Global;

/// The bytes of an image manifest: the text of its object, without spaces. Reading the bytes of
/// what is a manifest gives it again, where they keep the limits of a document.
pub fn image_bytes(alloc: Global, manifest: &ImageManifest) -> Result<Vec<u8>, NoMemory>
    ensures text { IfOk result (λ bytes. IsCompactText (image_object (image_data manifest.now)) bytes.items) }
    ensures text_of_manifest { IfOk result (λ bytes. IsImageManifest (image_data manifest.now)
        → bytes.items ≡ compact_text (image_object (image_data manifest.now))) }
    ensures utf8 { IfOk result (λ bytes. IsUtf8 bytes.items) }
    ensures reads_back { IfOk result (λ bytes. IsImageManifest (image_data manifest.now)
        → KeepsLimits (image_object (image_data manifest.now)) bytes.items
        → image_manifest bytes.items ≡ reads (image_data manifest.now)) }
{
    let value = image_value(alloc, manifest)?;
    document_bytes(alloc, &value)
}

fn image_value(alloc: Global, manifest: &ImageManifest) -> Result<Value, NoMemory>
    ensures { IfOk result (λ v. view v ≡ image_object (image_data manifest.now)) }
{
    let object = with_first_fields(alloc, manifest)?;
    let object = with_last_fields(alloc, manifest, object)?;
    Ok(object.finish())
}

fn with_first_fields(alloc: Global, manifest: &ImageManifest) -> Result<ObjectBuilder, NoMemory>
    ensures { IfOk result (λ b. built b ≡ put_all (first_image_members (image_data manifest.now)) no_members) }
{
    let object = ObjectBuilder::new(alloc);
    let object = object.text(alloc, "acKind", "ImageManifest")?;
    let object = object.text(alloc, "acVersion", manifest.ac_version.as_str())?;
    let object = with_list(
        alloc,
        object,
        "annotations",
        manifest.annotations.as_slice(),
    )?;
    with_app(alloc, object, "app", &manifest.app)
}

fn with_last_fields(
    alloc: Global,
    manifest: &ImageManifest,
    object: ObjectBuilder,
) -> Result<ObjectBuilder, NoMemory>
    ensures { IfOk result (λ b. built b ≡ put_all (last_image_members (image_data manifest.now)) (built object)) }
{
    let object = with_list(
        alloc,
        object,
        "dependencies",
        manifest.dependencies.as_slice(),
    )?;
    let object = with_list(alloc, object, "labels", manifest.labels.as_slice())?;
    let object = object.text(alloc, "name", manifest.name.as_str())?;
    with_list(
        alloc,
        object,
        "pathWhitelist",
        manifest.path_whitelist.as_slice(),
    )
}
