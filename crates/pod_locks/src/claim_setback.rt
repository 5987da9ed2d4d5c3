// What sets an attempt at a pod back: it begins again, or it is refused.
ghost use Rattle.std.specs.Prelude.{◌≡◌, true};
ghost use Rattle.dir_files.specs.AreaLocks.{is_lock_refusal};
ghost use Rattle.phase_read.specs.Faults.{IsLookFault};
ghost use Rattle.pod_locks.specs.ClaimSetbacks.{claim_setback_of, claim_step_setback, look_refusal, last_refusal};

use crate::claim_error::ClaimError;
use crate::setback::Setback as StepSetback;
use dir_trait::{DirError, PodId};
use phase_read::LookError;

/// What sets an attempt back.
#[derive(Clone, Copy, Debug, PartialEq, Eq)]
pub(crate) enum Setback {
    /// The pod isn't in prepared any more, so it is looked for once more.
    Missing,
    /// The claim is refused.
    Refused(ClaimError),
}

/// What it means that the directory refused to move the pod.
pub(crate) fn set_back(error: DirError) -> Setback
    ensures { result ≡ claim_setback_of error }
{
    match error {
        DirError::Missing => Setback::Missing,
        DirError::Failed => Setback::Refused(ClaimError::DirFault),
        DirError::NoMemory => Setback::Refused(ClaimError::NoMemory),
        _ => Setback::Refused(ClaimError::Stray),
    }
}

/// What it means that a step at the pod was set back.
pub(crate) fn step_setback(pod: PodId, stop: StepSetback) -> Setback
    ensures { result ≡ claim_step_setback pod stop }
{
    match stop {
        StepSetback::Missing => Setback::Missing,
        StepSetback::NoManifest => Setback::Refused(ClaimError::NoManifest),
        StepSetback::Busy(which) => Setback::Refused(ClaimError::Busy(pod, which)),
        StepSetback::DirFault => Setback::Refused(ClaimError::DirFault),
        StepSetback::Stray => Setback::Refused(ClaimError::Stray),
        StepSetback::NoMemory => Setback::Refused(ClaimError::NoMemory),
    }
}

/// What it means that a look found nothing out.
pub(crate) fn look_refusal(error: LookError) -> ClaimError
    requires { IsLookFault error }
    ensures { result ≡ look_refusal error }
{
    match error {
        LookError::DirFault => ClaimError::DirFault,
        LookError::NoMemory => ClaimError::NoMemory,
        _ => unreachable!(),
    }
}

/// What it means that the last attempt was set back.
pub(crate) fn last_refusal(stop: Setback) -> ClaimError
    ensures { result ≡ last_refusal stop }
{
    match stop {
        Setback::Missing => ClaimError::Stray,
        Setback::Refused(error) => error,
    }
}
