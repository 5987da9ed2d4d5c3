// Locations, handles and modes of locks.
ghost use Rattle.std.specs.Prelude.{◌≡◌};
ghost use Rattle.dir_model.specs.Spots.{pod_spot};

use crate::area::Area;
use crate::name::Name;
use crate::pod::PodId;

/// A location in the data folder: an area, and the name of a folder in it.
#[derive(Clone, Copy, PartialEq, Eq)]
pub struct Spot {
    pub area: Area,
    pub name: Name,
}

impl Spot {
    /// Where a pod stands in an area: the folder whose name is the pod's text.
    pub fn of_pod(pod: PodId, area: Area) -> Spot
        ensures { result ≡ pod_spot pod area }
    {
        Spot {
            area,
            name: pod.name(),
        }
    }
}

/// An open handle of one process.
#[derive(Clone, Copy, Debug, PartialEq, Eq)]
pub struct Handle {
    pub number: u32,
}

/// Which lock of a folder.
#[derive(Clone, Copy, Debug, PartialEq, Eq)]
pub enum Which {
    /// The lock on the folder itself. It follows the folder through moves.
    Own,
    /// The lock on the file `pod` in the folder: the activation lock of a pod.
    Claim,
}

/// How a lock is held. Exclusive conflicts with everything, shared with exclusive alone.
#[derive(Clone, Copy, Debug, PartialEq, Eq)]
pub enum Mode {
    Shared,
    Exclusive,
}
