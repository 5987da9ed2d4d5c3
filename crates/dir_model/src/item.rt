// What stands in the directories of a folder.
ghost use Rattle.std.specs.Prelude.{◌≡◌, IfOk};

use crate::file_name::FileName;
use crate::memory::NoMemory;
use crate::sequence::Bytes;
use crate::spot::Spot;

/// What kind of thing stands at a name. A symbolic link isn't followed.
#[derive(Clone, Copy, Debug, PartialEq, Eq)]
pub enum ItemKind {
    Dir,
    File,
    /// Neither of these, as a link, a device or a socket.
    Other,
}

/// A name in a directory, and what kind of thing stands there.
#[derive(Clone, Copy, PartialEq, Eq)]
pub struct Item {
    pub name: FileName,
    pub kind: ItemKind,
}

/// A path inside the folder at a location: file names parted by `/`. The empty path is the folder
/// itself.
#[derive(Drop)]
pub struct Inner {
    pub spot: Spot,
    pub path: Bytes,
}

impl Inner {
    /// An equal path. Refused only where memory ran out.
    pub fn copy(&self) -> Result<Inner, NoMemory>
        ensures { IfOk result (λ copy. copy ≡ self.now) }
    {
        Ok(Inner {
            spot: self.spot,
            path: self.path.copy()?,
        })
    }
}
