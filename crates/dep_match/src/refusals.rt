//! The numbers of the refusals of dependencies, and the limits of their trees.

/// The number of a dependency that no image is.
pub const NO_DEPENDENCY: u8 = 51;

/// The number of an image that depends on itself.
pub const CYCLE: u8 = 52;

/// The number of dependencies that are nested too deep.
pub const TOO_DEEP: u8 = 53;

/// The number of too many dependencies.
pub const TOO_MANY: u8 = 54;

/// The most images on the way from the top to a node, both included.
pub const MAX_DEPTH: usize = 32;

/// The most nodes of a tree.
pub const MAX_NODES: usize = 256;
