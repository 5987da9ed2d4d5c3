// What sets a step at a pod back.
ghost use Rattle.std.specs.Prelude.{◌≡◌};
ghost use Rattle.phase_read.specs.Faults.{IsLookFault};
ghost use Rattle.pod_locks.specs.Setbacks.{step_setback_of, step_lock_setback, look_setback, delete_setback};

use dir_trait::{DirError, Which};
use folder_removal::DeleteError;
use phase_read::LookError;

/// What sets a step at a pod back.
#[derive(Clone, Copy, Debug, PartialEq, Eq)]
pub enum Setback {
    /// No folder of the pod stands at that place.
    Missing,
    /// Its folder stands in prepared without the file `pod`.
    NoManifest,
    /// Another handle holds this lock of the pod.
    Busy(Which),
    /// The directory failed.
    DirFault,
    /// The directory's answers contradict each other or what a lock keeps.
    Stray,
    /// Memory ran out.
    NoMemory,
}

/// What it means that the directory refused to open a lock, to move the pod or to mark it.
pub fn set_back(error: DirError) -> Setback
    ensures { result ≡ step_setback_of error }
{
    match error {
        DirError::Missing => Setback::Missing,
        DirError::Failed => Setback::DirFault,
        DirError::NoMemory => Setback::NoMemory,
        _ => Setback::Stray,
    }
}

/// What it means that it refused a lock.
pub(crate) fn lock_setback(which: Which, error: DirError) -> Setback
    ensures { result ≡ step_lock_setback which error }
{
    match error {
        DirError::Locked => Setback::Busy(which),
        _ => set_back(error),
    }
}

/// What it means that a look found nothing out.
pub fn look_setback(error: LookError) -> Setback
    requires { IsLookFault error }
    ensures { result ≡ look_setback error }
{
    match error {
        LookError::DirFault => Setback::DirFault,
        LookError::NoMemory => Setback::NoMemory,
        _ => unreachable!(),
    }
}

/// What it means that a folder wasn't deleted.
pub fn delete_setback(error: DeleteError) -> Setback
    ensures { result ≡ delete_setback error }
{
    match error {
        DeleteError::DirFault => Setback::DirFault,
        DeleteError::Stray => Setback::Stray,
        DeleteError::NoMemory => Setback::NoMemory,
    }
}
