//! The reading of image manifests.
ghost use Rattle.std.specs.Prelude.{IfOk};
ghost use Rattle.serde_json.specs.View.{view};
ghost use Rattle.ac_types.specs.Outcomes.{Answers};
ghost use Rattle.manifests.specs.ImageData.{image_data};
ghost use Rattle.manifests.specs.ImageForm.{image_fields, image_manifest};
ghost use Rattle.manifests.specs.ManifestRules.{IsImageManifest};

use crate::app_field::optional_app;
use crate::image_manifest::ImageManifest;
use crate::last_fields::read_last_image_fields;
use ac_types::{ReadError, required_identifier};
use manifest_parts::{labels_field, read_object, required_kind, required_version};
use serde_json::Value;
use std::alloc::Global;

/// The image manifest that some bytes are. Otherwise the first fault in the order of the format:
/// that of the document, then those of its fields; or `NoMemory`.
pub fn read_image(alloc: Global, bytes: &[u8]) -> Result<ImageManifest, ReadError>
    ensures image { Answers image_data (image_manifest bytes.now) result }
    ensures kind { IfOk result (λ read. IsImageManifest (image_data read)) }
{
    read_whole_image(alloc, bytes)
}

#[tactic(auto, unfolding(crate::specs::ImageForm::image_manifest))]
fn read_whole_image(alloc: Global, bytes: &[u8]) -> Result<ImageManifest, ReadError>
    ensures { Answers image_data (image_manifest bytes.now) result }
{
    let value = read_object(alloc, bytes)?;
    required_kind(alloc, &value, "ImageManifest")?;
    read_image_fields(alloc, &value)
}

/// The fields that follow the kind.
#[tactic(auto, unfolding(crate::specs::ImageForm::image_fields))]
pub(crate) fn read_image_fields(alloc: Global, value: &Value) -> Result<ImageManifest, ReadError>
    ensures { Answers image_data (image_fields (view value.now)) result }
{
    let ac_version = required_version(alloc, value)?;
    let name = required_identifier(alloc, value, "$", "name")?;
    let labels = labels_field(alloc, value, "$", "labels")?;
    let app = optional_app(alloc, value, "$", "app")?;
    match read_last_image_fields(alloc, value) {
        Ok(last) => {
            Ok(ImageManifest {
                ac_version,
                name,
                labels,
                app,
                dependencies: last.dependencies,
                path_whitelist: last.path_whitelist,
                annotations: last.annotations,
            })
        }
        Err(error) => Err(error),
    }
}
