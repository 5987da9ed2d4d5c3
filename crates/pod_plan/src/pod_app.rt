// An app of a pod.
use ac_types::AcName;
use dir_trait::Bytes;
use render::Rendering;
use tree_digest::Listing;

/// An app of a pod, with what its files are made from.
#[derive(Drop)]
pub struct PodApp {
    pub name: AcName,
    /// The manifest of its image, as it is stored.
    pub manifest: Bytes,
    /// What its root holds.
    pub rendering: Rendering,
    /// The listing of the rendering.
    pub listing: Listing,
}
