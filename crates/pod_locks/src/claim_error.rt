// Why a pod wasn't claimed.
use dir_trait::{Phase, PodId, Which};

/// Why a pod wasn't claimed.
#[derive(Clone, Copy, Debug, PartialEq, Eq)]
pub enum ClaimError {
    /// There is no such pod.
    NoPod,
    /// The pod has this phase. Only a prepared pod can be run.
    WrongPhase(Phase),
    /// The pod stands in prepared without its manifest.
    NoManifest,
    /// Another process holds this lock of the pod.
    Busy(PodId, Which),
    /// The directory failed.
    DirFault,
    /// The directory's answers contradict each other: the pod was found in prepared and then missing
    /// there twice, or the place in run was taken.
    Stray,
    /// Memory ran out.
    NoMemory,
}
