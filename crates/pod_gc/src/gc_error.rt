// Why a sweep of pods ended early.
ghost use Rattle.std.specs.Prelude.{◌≡◌};
ghost use Rattle.phase_read.specs.Faults.{IsLookFault};
ghost use Rattle.pod_gc.specs.Causes.{listing_fault, look_fault, lock_fault, step_fault};

use dir_files::LockError;
use dir_trait::DirError;
use phase_read::LookError;
use pod_locks::Setback;

/// Why a sweep of pods ended early.
#[derive(Clone, Copy, Debug, PartialEq, Eq)]
pub enum GcError {
    /// The directory failed.
    DirFault,
    /// The directory's answers contradict each other or what a lock keeps, as where a program that
    /// outlived its pod still writes there.
    Stray,
    /// Memory ran out.
    NoMemory,
}

/// What a refused listing means.
pub(crate) fn listing_fault(error: DirError) -> GcError
    ensures { result ≡ listing_fault error }
{
    match error {
        DirError::Failed => GcError::DirFault,
        DirError::NoMemory => GcError::NoMemory,
        _ => GcError::Stray,
    }
}

/// What it means that a look found nothing out.
pub(crate) fn look_fault(error: LookError) -> GcError
    requires { IsLookFault error }
    ensures { result ≡ look_fault error }
{
    match error {
        LookError::DirFault => GcError::DirFault,
        LookError::NoMemory => GcError::NoMemory,
        _ => unreachable!(),
    }
}

/// What it means that the lock of an area wasn't had, other than that it is busy.
pub(crate) fn lock_fault(error: LockError) -> GcError
    ensures { result ≡ lock_fault error }
{
    match error {
        LockError::DirFault => GcError::DirFault,
        _ => GcError::NoMemory,
    }
}

/// What it means that a step at a pod was set back, other than that the pod is missing or busy.
pub(crate) fn step_fault(stop: Setback) -> GcError
    ensures { result ≡ step_fault stop }
{
    match stop {
        Setback::DirFault => GcError::DirFault,
        Setback::NoMemory => GcError::NoMemory,
        _ => GcError::Stray,
    }
}
