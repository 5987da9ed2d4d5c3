//! Whether an image is one that is looked for.

ghost use Rattle.std.specs.Prelude.{◌≡◌, ◌&&◌, take};
ghost use Rattle.std.specs.List.{list_all};
ghost use Rattle.std.specs.Str.{bytes_eq};
ghost use Rattle.ac_types.specs.declared.label.Label.{Label};
ghost use Rattle.dep_match.specs.Steps.{accepts};
ghost use Rattle.dep_match.specs.Selection.{digits_of, has_id, has_label, is_called, is_same_label};

use crate::stored::Stored;
use ac_types::{AcIdentifier, ImageId, ImageRef, Label, lower_hex};
use manifests::Dependency;

/// What an image is looked for by.
#[derive(Clone, Copy)]
pub(crate) enum Wanted<'a> {
    Reference(&'a ImageRef),
    Dependent(&'a Dependency),
}

/// Whether the image is one that is looked for.
pub(crate) fn accepts(wanted: &Wanted, image: &Stored) -> bool
    ensures { result ≡ accepts wanted.now image.now }
{
    match wanted {
        Wanted::Reference(ImageRef::Named { name, labels }) => {
            is_called(image, name, labels.as_slice())
        }
        Wanted::Reference(ImageRef::ById { digits, len }) => {
            begins_with(image.id, digits, usize::from(*len))
        }
        Wanted::Dependent(dependency) => {
            is_called(image, &dependency.image_name, dependency.labels.as_slice())
                && has_id(&dependency.image_id, image.id)
        }
    }
}

fn is_called(image: &Stored, name: &AcIdentifier, labels: &[Label]) -> bool
    ensures { result ≡ is_called name.now labels.now image.now }
{
    let manifest = &image.manifest;
    manifest.name.as_str() == name.as_str() && has_labels(manifest.labels.as_slice(), labels)
}

fn has_labels(labels: &[Label], wanted: &[Label]) -> bool
    ensures { result ≡ list_all (λ (l : Label). has_label labels.now l) wanted.now }
{
    wanted.iter().all(|label| has_label(labels, label))
}

fn has_label(labels: &[Label], wanted: &Label) -> bool
    ensures { result ≡ has_label labels.now wanted.now }
{
    labels.iter().any(|label| is_same_label(label, wanted))
}

fn is_same_label(label: &Label, other: &Label) -> bool
    ensures { result ≡ is_same_label label.now other.now }
{
    label.name.as_str() == other.name.as_str() && label.value.as_str() == other.value.as_str()
}

fn has_id(wanted: &Option<ImageId>, id: ImageId) -> bool
    ensures { result ≡ has_id wanted.now id }
{
    match wanted {
        Some(wanted) => id.bytes == wanted.bytes,
        None => true,
    }
}

fn begins_with(id: ImageId, digits: &[u8; 128], len: usize) -> bool
    ensures { result ≡ bytes_eq (take len (digits_of id)) (take len digits.now) }
{
    have_one_front(&lower_hex(&id.bytes), digits, len)
}

fn have_one_front(text: &[u8; 128], other: &[u8; 128], len: usize) -> bool
    ensures { result ≡ bytes_eq (take len text.now) (take len other.now) }
{
    let len = len.min(128);
    text[..len] == other[..len]
}
