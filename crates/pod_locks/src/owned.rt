// A pod in run and the handle by which its process holds it.
use dir_trait::{Area, Handle, PodId};

/// A pod whose own lock this process holds exclusively by this handle, and the area where it stands.
#[derive(Clone, Copy, Debug, PartialEq, Eq)]
pub struct Owned {
    pub pod: PodId,
    pub area: Area,
    pub own: Handle,
}
