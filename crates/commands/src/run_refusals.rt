// What is said of a pod that isn't run.
ghost use Rattle.std.specs.Prelude.{◌≡◌, IfOk};
ghost use Rattle.commands.specs.RunRefusals.{claim_refusal, run_refusal, IsRunSaid};

use ac_types::{NoMemory, Text};
use command_outcomes::Refusal;
use dir_trait::PodId;
use pod_locks::ClaimError;
use stage1::RunError;
use std::alloc::Global;

/// What is said of a pod that isn't claimed.
pub(crate) fn claim_refusal(pod: PodId, error: ClaimError) -> Refusal
    ensures { result ≡ claim_refusal pod error }
{
    match error {
        ClaimError::NoPod => Refusal::NoPod,
        ClaimError::WrongPhase(phase) => Refusal::WrongPhase(phase),
        ClaimError::NoManifest => Refusal::NoManifest(pod),
        ClaimError::Busy(other, which) => Refusal::PodBusy(other, which),
        ClaimError::DirFault => Refusal::DirFault,
        ClaimError::Stray => Refusal::Stray,
        ClaimError::NoMemory => Refusal::NoMemory,
    }
}

fn said(alloc: Global, pod: PodId, error: RunError) -> Result<Refusal, NoMemory>
    ensures { IfOk result (λ refusal. refusal ≡ run_refusal pod error) }
{
    match error {
        RunError::NoManifest => Ok(Refusal::NoManifest(pod)),
        RunError::Damaged(path) => Ok(Refusal::Damaged(path)),
        RunError::NoProgram(app, word) => {
            let app = Text::of(alloc, app.as_str())?;
            Ok(Refusal::NoProgram(app, word))
        }
        RunError::SpawnFault => Ok(Refusal::SpawnFault),
        RunError::DirFault => Ok(Refusal::DirFault),
        RunError::Stray => Ok(Refusal::Stray),
        RunError::NoMemory => Ok(Refusal::NoMemory),
    }
}

/// What is said of a claimed pod that isn't run to its end; or that memory ran out.
pub(crate) fn run_refusal(alloc: Global, pod: PodId, error: RunError) -> Refusal
    ensures { IsRunSaid pod error result }
{
    match said(alloc, pod, error) {
        Ok(refusal) => refusal,
        Err(_) => Refusal::NoMemory,
    }
}
