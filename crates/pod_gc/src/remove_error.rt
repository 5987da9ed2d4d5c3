// Why a pod wasn't removed.
ghost use Rattle.std.specs.Prelude.{◌≡◌};
ghost use Rattle.pod_gc.specs.RemovalSetbacks.{remove_error_of};

use dir_trait::{Phase, PodId, Which};
use pod_locks::Setback;

/// Why a pod wasn't removed.
#[derive(Clone, Copy, Debug, PartialEq, Eq)]
pub enum RemoveError {
    /// There is no such pod.
    NoPod,
    /// The pod has this phase: it is being made, runs, or is being deleted by another process.
    WrongPhase(Phase),
    /// The pod stands in prepared without its manifest.
    NoManifest,
    /// Another process holds this lock of the pod.
    Busy(PodId, Which),
    /// The directory failed.
    DirFault,
    /// The directory's answers contradict each other or what a lock keeps, as where a program that
    /// outlived its pod still writes there.
    Stray,
    /// Memory ran out.
    NoMemory,
}

/// What it means for the pod's removal that a step at it was set back for good.
pub(crate) fn refusal(pod: PodId, stop: Setback) -> RemoveError
    ensures { result ≡ remove_error_of pod stop }
{
    match stop {
        Setback::Missing => RemoveError::Stray,
        Setback::NoManifest => RemoveError::NoManifest,
        Setback::Busy(which) => RemoveError::Busy(pod, which),
        Setback::DirFault => RemoveError::DirFault,
        Setback::Stray => RemoveError::Stray,
        Setback::NoMemory => RemoveError::NoMemory,
    }
}
