//! Dependencies of an image.
ghost use Rattle.std.specs.Prelude.{◌≡◌, IfOk};

use crate::ids::optional_id;
use crate::labels_reader::labels_field;
use ac_types::{
    AcIdentifier, FromElement, ImageId, Labels, NoMemory, ReadError, Sequence, TryCopy,
    object_value, required_identifier, whole_field,
};
use serde_json::Value;
use std::alloc::Global;

/// An image on which another stands.
#[derive(Drop)]
pub struct Dependency {
    pub image_name: AcIdentifier,
    /// The ID that the image must have, where one is named.
    pub image_id: Option<ImageId>,
    /// The labels that the image must have.
    pub labels: Labels,
    /// In bytes.
    pub size: Option<u64>,
}

/// A list of dependencies. Contracts see its elements.
pub type Dependencies = Sequence<Dependency>;

impl Dependency {
    /// An equal dependency.
    pub fn copy(&self) -> Result<Dependency, NoMemory>
        ensures { IfOk result (λ copy. copy ≡ self.now) }
    {
        Ok(Dependency {
            image_name: self.image_name.copy()?,
            image_id: self.image_id,
            labels: self.labels.copy()?,
            size: self.size,
        })
    }
}

impl TryCopy for Dependency {
    fn try_copy(&self) -> Result<Dependency, NoMemory> {
        self.copy()
    }
}

impl FromElement for Dependency {
    ghost use Rattle.manifest_parts.specs.declared.dependency.Dependency.{Dependency};
    ghost use Rattle.manifest_parts.specs.DependencyForm.{dependency};

    ghost Shown = { Dependency };

    ghost shown = { λ d. d };

    ghost form = { dependency };

    ghost name_of = { λ d. d.image_name };

    #[tactic(auto, unfolding(crate::specs::DependencyForm::dependency))]
    fn read(alloc: Global, value: &Value, at: &str) -> Result<Dependency, ReadError> {
        object_value(alloc, value, at)?;
        let image_name = required_identifier(alloc, value, at, "imageName")?;
        let image_id = optional_id(alloc, value, at, "imageID")?;
        let labels = labels_field(alloc, value, at, "labels")?;
        let size = whole_field(alloc, value, at, "size", u64::MAX)?;
        Ok(Dependency {
            image_name,
            image_id,
            labels,
            size,
        })
    }
}
