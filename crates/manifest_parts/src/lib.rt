//! What both manifests are made of: their document, its first fields, labels, IDs, and the
//! elements of their lists that hold names, texts and numbers.
#![tactic(auto)]

pub mod annotation;
pub mod dependency;
pub mod distinct;
pub mod heads;
pub mod ids;
pub mod json_document;
pub mod labels_reader;
pub mod runtime_image;

pub use annotation::{Annotation, Annotations};
pub use dependency::{Dependencies, Dependency};
pub use distinct::{DistinctElement, distinct_list, required_distinct_list};
pub use heads::{required_kind, required_version};
pub use ids::{optional_id, optional_identifier, required_id};
pub use json_document::{MOST_OF_MANIFEST, read_object};
pub use labels_reader::labels_field;
pub use runtime_image::{RuntimeImage, read_runtime_image};
