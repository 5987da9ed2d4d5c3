//! Both manifests of App Container: their types, their reading, and how they are written: as JSON
//! without spaces, names in byte order.
#![tactic(auto)]

mod app_field;
pub mod document;
mod document_text;
mod elements;
pub mod image_manifest;
pub mod image_reader;
mod image_writer;
mod last_fields;
pub mod lists;
pub mod mount;
mod optional_fields;
pub mod pod_manifest;
pub mod pod_port;
pub mod pod_reader;
mod pod_writer;
pub mod runtime_app;
mod runtime_apps;
pub mod volume;
mod volume_kinds;
mod volumes;
mod whitelist;

pub use document::{Document, read_document};
pub use image_manifest::ImageManifest;
pub use image_reader::read_image;
pub use image_writer::image_bytes;
pub use manifest_parts::{
    Annotation, Annotations, Dependencies, Dependency, MOST_OF_MANIFEST, RuntimeImage,
};
pub use mount::{Mount, Mounts};
pub use pod_manifest::PodManifest;
pub use pod_port::{PodPort, PodPorts};
pub use pod_reader::read_pod;
pub use pod_writer::pod_bytes;
pub use runtime_app::{RuntimeApp, RuntimeApps};
pub use volume::{Volume, VolumeKind, Volumes};
