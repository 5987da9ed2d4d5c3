//! A manifest of either kind.
ghost use Rattle.std.specs.Prelude.{◌≡◌, IfOk};
ghost use Rattle.serde_json.specs.View.{view};
ghost use Rattle.ac_types.specs.Outcomes.{Answers};
ghost use Rattle.manifests.specs.DocumentData.{any_manifest, document_data, fields_of};
ghost use Rattle.manifests.specs.ManifestRules.{IsManifest};

use crate::image_manifest::ImageManifest;
use crate::image_reader::read_image_fields;
use crate::pod_manifest::PodManifest;
use crate::pod_reader::read_pod_fields;
use ac_types::{FaultKind, NoMemory, ReadError, ShownCopy, field_fault, filled_text};
use manifest_parts::read_object;
use serde_json::Value;
use std::alloc::Global;

/// A manifest of either kind.
#[derive(Drop)]
pub enum Document {
    Image(ImageManifest),
    Pod(PodManifest),
}

impl Document {
    /// An equal manifest of the same kind.
    pub fn copy(&self) -> Result<Document, NoMemory>
        ensures { IfOk result (λ copy. document_data copy ≡ document_data self.now) }
    {
        match self {
            Document::Image(manifest) => Ok(Document::Image(manifest.copy()?)),
            Document::Pod(manifest) => Ok(Document::Pod(manifest.copy()?)),
        }
    }
}

impl ShownCopy for Document {
    ghost use Rattle.manifests.specs.DocumentData.{DocumentData, document_data};

    ghost Shown = { DocumentData };

    ghost shown = { document_data };

    fn copy(&self) -> Result<Document, NoMemory> {
        Document::copy(self)
    }
}

/// The manifest that some bytes are, of the kind that its `acKind` names: `WrongAcKind` there for
/// another kind. Otherwise the first fault in the order of the format, or `NoMemory`.
pub fn read_document(alloc: Global, bytes: &[u8]) -> Result<Document, ReadError>
    ensures document { Answers document_data (any_manifest bytes.now) result }
    ensures kind { IfOk result (λ read. IsManifest (document_data read)) }
{
    read_any(alloc, bytes)
}

#[tactic(auto, unfolding(crate::specs::DocumentData::any_manifest))]
fn read_any(alloc: Global, bytes: &[u8]) -> Result<Document, ReadError>
    ensures { Answers document_data (any_manifest bytes.now) result }
{
    let value = read_object(alloc, bytes)?;
    let kind = filled_text(alloc, &value, "$", "acKind")?;
    read_fields_of(alloc, &value, kind)
}

#[tactic(auto, unfolding(crate::specs::DocumentData::fields_of))]
fn read_fields_of(alloc: Global, value: &Value, kind: &str) -> Result<Document, ReadError>
    ensures { Answers document_data (fields_of kind.now (view value.now)) result }
{
    if kind == "ImageManifest" {
        return Ok(Document::Image(read_image_fields(alloc, value)?));
    }
    if kind == "PodManifest" {
        return Ok(Document::Pod(read_pod_fields(alloc, value)?));
    }
    Err(field_fault(alloc, "$", "acKind", FaultKind::WrongAcKind))
}
