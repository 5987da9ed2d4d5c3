// Why a pod wasn't made.
ghost use Rattle.std.specs.Prelude.{◌≡◌};
ghost use Rattle.pod_build.specs.MakingRefusals.{making_lock_refusal, making_change_refusal, make_folder_refusal, make_error_of_build};

use dir_files::LockError;
use dir_trait::DirError;
use folder_building::BuildError;

/// Why a pod wasn't made.
#[derive(Clone, Copy, Debug, PartialEq, Eq)]
pub enum MakeError {
    /// Another process holds the lock of embryo exclusively.
    Busy,
    /// A folder with the pod's name stood in embryo.
    Taken,
    /// The file of the plan's entry with this number, counted from 0, is missing where it is copied
    /// from, or has another size or SHA-512.
    Unlike(usize),
    /// The directory failed.
    DirFault,
    /// The directory gave an answer that this process's own making doesn't explain.
    Stray,
    /// Memory ran out.
    NoMemory,
}

pub(crate) fn lock_refusal(error: LockError) -> MakeError
    ensures { result ≡ making_lock_refusal error }
{
    match error {
        LockError::Busy => MakeError::Busy,
        LockError::DirFault => MakeError::DirFault,
        LockError::NoMemory => MakeError::NoMemory,
    }
}

/// What it means that the directory refused to change or to open what this process has made.
pub(crate) fn change_refusal(error: DirError) -> MakeError
    ensures { result ≡ making_change_refusal error }
{
    match error {
        DirError::Failed => MakeError::DirFault,
        DirError::NoMemory => MakeError::NoMemory,
        _ => MakeError::Stray,
    }
}

/// What it means that it refused to make the folder.
pub(crate) fn make_refusal(error: DirError) -> MakeError
    ensures { result ≡ make_folder_refusal error }
{
    match error {
        DirError::Exists => MakeError::Taken,
        _ => change_refusal(error),
    }
}

/// What it means that the folder wasn't filled. The files come from the directory itself.
pub(crate) fn build_refusal(error: BuildError) -> MakeError
    ensures { result ≡ make_error_of_build error }
{
    match error {
        BuildError::Unlike(place) => MakeError::Unlike(place),
        BuildError::SourceFault | BuildError::DirFault => MakeError::DirFault,
        BuildError::Stray => MakeError::Stray,
        BuildError::NoMemory => MakeError::NoMemory,
    }
}
