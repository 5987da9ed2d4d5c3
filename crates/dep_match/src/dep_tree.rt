//! Trees of images.

ghost use Rattle.std.specs.Prelude.{◌≡◌, IfOk};

use ac_types::{NoMemory, Sequence, TryCopy};

/// Places in a list. Contracts see numbers.
pub type Places = Sequence<usize>;

/// An image in a tree of dependencies.
#[derive(Drop)]
pub struct DepNode {
    /// The image's place in the list of images.
    pub image: usize,
    /// The places of the nodes of its dependencies, in their order.
    pub children: Places,
}

/// The nodes of a tree. Contracts see its elements.
pub type DepNodes = Sequence<DepNode>;

/// An image, the images on which it stands, those on which they stand, and so on.
#[derive(Drop)]
pub struct DepTree {
    /// The nodes in the order of making, depth first; node 0 is the top.
    pub nodes: DepNodes,
}

impl DepNode {
    /// An equal node.
    pub fn copy(&self) -> Result<DepNode, NoMemory>
        ensures { IfOk result (λ copy. copy ≡ self.now) }
    {
        Ok(DepNode {
            image: self.image,
            children: self.children.copy()?,
        })
    }
}

impl TryCopy for DepNode {
    fn try_copy(&self) -> Result<DepNode, NoMemory> {
        self.copy()
    }
}

impl DepTree {
    /// An equal tree.
    pub fn copy(&self) -> Result<DepTree, NoMemory>
        ensures { IfOk result (λ copy. copy ≡ self.now) }
    {
        Ok(DepTree {
            nodes: self.nodes.copy()?,
        })
    }
}

impl TryCopy for DepTree {
    fn try_copy(&self) -> Result<DepTree, NoMemory> {
        self.copy()
    }
}
