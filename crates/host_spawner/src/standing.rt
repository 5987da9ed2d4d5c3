// What stands at a path.
ghost use Rattle.std.specs.Prelude.{◌≡◌, ◌↔◌};
ghost use Rattle.std.specs.Fs.{file_type, IsDir, IsFile};

use std::fs::Metadata;

/// What stands at a path, where a link isn't followed.
#[derive(Clone, Copy, Debug, PartialEq, Eq)]
pub enum Standing {
    /// A directory.
    Directory,
    /// A file.
    File,
    /// A link, or something else.
    Other,
}

/// What this is.
pub fn standing_of(found: &Metadata) -> Standing
    ensures directory { (result ≡ Standing.Directory) ↔ IsDir (file_type found.now) }
    ensures file { (result ≡ Standing.File) ↔ IsFile (file_type found.now) }
{
    if found.is_dir() {
        Standing::Directory
    } else if found.is_file() {
        Standing::File
    } else {
        Standing::Other
    }
}
