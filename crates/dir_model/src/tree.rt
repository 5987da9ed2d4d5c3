// What stands inside the folders, and what is told of it by a listing.
ghost use Rattle.std.specs.Prelude.{◌≡◌, IfOk};

use crate::area::Area;
use crate::item::Inner;
use crate::memory::NoMemory;
use crate::sequence::{Bytes, Items, Names};

/// A directory, or a piece of a file. A file is made with an empty piece, and each append adds one.
#[derive(Drop)]
pub enum TreeNode {
    Dir,
    Piece(Bytes),
}

/// Something at a path inside a folder, which has its number.
#[derive(Drop)]
pub struct TreeEntry {
    pub folder: usize,
    pub path: Bytes,
    pub node: TreeNode,
}

/// A started app: the number of its pod's folder, and the path of its root inside. What stands at
/// the root and below it is from then on the app's own.
#[derive(Drop)]
pub struct StartedApp {
    pub folder: usize,
    pub root: Bytes,
}

/// What an open listing is about. Before each change of what stands in any directory it notes which
/// of the names that stood so far still stand (`through`), and which stand then (`ever`).
#[derive(Drop)]
pub enum Listed {
    Area {
        area: Area,
        through: Names,
        ever: Names,
    },
    /// No directory stood at the path when the listing began.
    Missing(Inner),
    /// The folder has this number, wherever it is moved.
    Inside {
        inner: Inner,
        folder: usize,
        through: Items,
        ever: Items,
    },
}

/// A listing that a process has begun and not ended.
#[derive(Drop)]
pub struct OpenListing {
    pub process: u32,
    pub listed: Listed,
}

impl Listed {
    /// An equal value. Refused only where memory ran out.
    pub fn copy(&self) -> Result<Listed, NoMemory>
        ensures { IfOk result (λ copy. copy ≡ self.now) }
    {
        Ok(match self {
            Listed::Area {
                area,
                through,
                ever,
            } => Listed::Area {
                area: *area,
                through: through.copy()?,
                ever: ever.copy()?,
            },
            Listed::Missing(inner) => Listed::Missing(inner.copy()?),
            Listed::Inside {
                inner,
                folder,
                through,
                ever,
            } => Listed::Inside {
                inner: inner.copy()?,
                folder: *folder,
                through: through.copy()?,
                ever: ever.copy()?,
            },
        })
    }
}

impl OpenListing {
    /// An equal value. Refused only where memory ran out.
    pub fn copy(&self) -> Result<OpenListing, NoMemory>
        ensures { IfOk result (λ copy. copy ≡ self.now) }
    {
        Ok(OpenListing {
            process: self.process,
            listed: self.listed.copy()?,
        })
    }
}
