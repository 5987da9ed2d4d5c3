//! The image of an app of a pod.
ghost use Rattle.std.specs.Prelude.{◌≡◌, IfOk};
ghost use Rattle.serde_json.specs.View.{view};
ghost use Rattle.ac_types.specs.Outcomes.{Gives};
ghost use Rattle.manifest_parts.specs.RuntimeImageForm.{runtime_image};

use crate::ids::{optional_identifier, required_id};
use crate::labels_reader::labels_field;
use ac_types::{AcIdentifier, ImageId, Labels, NoMemory, ReadError, TryCopy, object_value};
use serde_json::Value;
use std::alloc::Global;

/// The image of an app of a pod.
#[derive(Drop)]
pub struct RuntimeImage {
    pub id: ImageId,
    pub name: Option<AcIdentifier>,
    pub labels: Labels,
}

impl RuntimeImage {
    /// An equal image.
    pub fn copy(&self) -> Result<RuntimeImage, NoMemory>
        ensures { IfOk result (λ copy. copy ≡ self.now) }
    {
        Ok(RuntimeImage {
            id: self.id,
            name: self.name.try_copy()?,
            labels: self.labels.copy()?,
        })
    }
}

impl TryCopy for RuntimeImage {
    fn try_copy(&self) -> Result<RuntimeImage, NoMemory> {
        self.copy()
    }
}

/// The image that the JSON at a path is.
#[tactic(auto, unfolding(crate::specs::RuntimeImageForm::runtime_image))]
pub fn read_runtime_image(alloc: Global, value: &Value, at: &str) -> Result<RuntimeImage, ReadError>
    ensures { Gives (runtime_image at.now (view value.now)) result }
{
    object_value(alloc, value, at)?;
    let id = required_id(alloc, value, at, "id")?;
    let name = optional_identifier(alloc, value, at, "name")?;
    let labels = labels_field(alloc, value, at, "labels")?;
    Ok(RuntimeImage { id, name, labels })
}
