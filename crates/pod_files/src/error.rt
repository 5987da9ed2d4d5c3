// Why a file of a pod has no reading.
ghost use Rattle.std.specs.Prelude.{◌≡◌};
ghost use Rattle.pod_files.specs.Lacks.{IsFileLack};

use dir_files::ReadError;

/// Why a file of a pod has no reading.
#[derive(Clone, Copy, Debug, PartialEq, Eq)]
pub enum FileError {
    /// The file is missing, or isn't what its name says.
    Lacking,
    /// The directory failed.
    DirFault,
    /// Memory ran out.
    NoMemory,
}

/// The refusal of a read of a file.
pub fn file_error(error: ReadError) -> FileError
    ensures fault { result ≡ FileError.DirFault → error ≡ ReadError.DirFault }
    ensures outside { IsFileLack ⊥ result }
{
    match error {
        ReadError::DirFault => FileError::DirFault,
        ReadError::NoMemory => FileError::NoMemory,
    }
}
