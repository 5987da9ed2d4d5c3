// Open handles, as the namespace and as their own process know them.
use crate::area::Area;
use crate::spot::{Handle, Mode, Spot};

/// What a handle stands for: the lock of the folder that stood at a location when it was opened,
/// the activation lock of that folder, or the lock of an area.
#[derive(Clone, Copy, PartialEq, Eq)]
pub enum Target {
    Own(Spot),
    Claim(Spot),
    Gate(Area),
}

/// An open handle in the namespace: whose it is, what it was opened for, the number of the folder
/// whose lock that is, and how it holds the lock. The lock of an area has no folder.
#[derive(Clone, Copy, PartialEq, Eq)]
pub struct Opening {
    pub process: u32,
    pub handle: Handle,
    pub target: Target,
    pub folder: Option<usize>,
    pub lock: Option<Mode>,
}

/// An open handle as its own process knows it: what it was opened for, and how it holds the lock.
#[derive(Clone, Copy, PartialEq, Eq)]
pub struct Holding {
    pub handle: Handle,
    pub target: Target,
    pub lock: Option<Mode>,
}
