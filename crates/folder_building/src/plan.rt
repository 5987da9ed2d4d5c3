// What is to be made in a folder.
ghost use Rattle.std.specs.Prelude.{◌≡◌};
ghost use Rattle.folder_building.specs.Plans.{is_file};

use ac_types::Text;
use dir_trait::{Bytes, Name};

/// Where a file is copied from: the folder of the store in which it stands, if it is one, and its path
/// there, file names parted by `/`.
#[derive(Drop)]
pub struct Origin {
    pub folder: Option<Name>,
    pub path: Text,
}

/// What is made at a path.
#[derive(Drop)]
pub enum Content {
    Directory,
    /// A file with these bytes.
    Given(Bytes),
    /// A file that is copied. It has this size in bytes and this SHA-512.
    Copied {
        origin: Origin,
        size: u64,
        sha: [u8; 64],
    },
}

/// One thing that is to be made in a folder. The path is file names parted by `/`.
#[derive(Drop)]
pub struct PlanEntry {
    pub path: Text,
    pub content: Content,
}
