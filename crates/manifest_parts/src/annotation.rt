//! Annotations.
ghost use Rattle.std.specs.Prelude.{◌≡◌, IfOk};

use ac_types::{
    AcIdentifier, FromElement, NoMemory, ReadError, Sequence, Text, TryCopy, object_value,
    required_identifier, required_text,
};
use serde_json::Value;
use std::alloc::Global;

/// A remark on an image, an app or a pod.
#[derive(Drop)]
pub struct Annotation {
    pub name: AcIdentifier,
    /// Any text, the empty one too.
    pub value: Text,
}

/// A list of annotations. Contracts see its elements.
pub type Annotations = Sequence<Annotation>;

impl Annotation {
    /// An equal annotation.
    pub fn copy(&self) -> Result<Annotation, NoMemory>
        ensures { IfOk result (λ copy. copy ≡ self.now) }
    {
        Ok(Annotation {
            name: self.name.copy()?,
            value: self.value.copy()?,
        })
    }
}

impl TryCopy for Annotation {
    fn try_copy(&self) -> Result<Annotation, NoMemory> {
        self.copy()
    }
}

impl FromElement for Annotation {
    ghost use Rattle.manifest_parts.specs.declared.annotation.Annotation.{Annotation};
    ghost use Rattle.manifest_parts.specs.AnnotationForm.{annotation};

    ghost Shown = { Annotation };

    ghost shown = { λ a. a };

    ghost form = { annotation };

    ghost name_of = { λ a. a.name };

    #[tactic(auto, unfolding(crate::specs::AnnotationForm::annotation))]
    fn read(alloc: Global, value: &Value, at: &str) -> Result<Annotation, ReadError> {
        object_value(alloc, value, at)?;
        let name = required_identifier(alloc, value, at, "name")?;
        let text = required_text(alloc, value, at, "value")?;
        Ok(Annotation {
            name,
            value: Text::of(alloc, text)?,
        })
    }
}
