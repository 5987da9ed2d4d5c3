// Why a pod wasn't run to its end.
ghost use Rattle.std.specs.Prelude.{◌≡◌, IfOk};
ghost use Rattle.stage1.specs.Refusals.{spawn_fault, change_fault, load_refusal, fault_refusal};

use crate::LoadError;
use ac_types::{AcName, NoMemory, Text, memory};
use dir_trait::DirError;
use spawner::SpawnError;
use std::alloc::AllocError;

/// Why a pod wasn't run to its end.
#[derive(Drop)]
pub enum RunError {
    /// The file `pod` is missing or is no pod manifest.
    NoManifest,
    /// The file at the path, which begins with the pod's uuid, is missing or has no reading: the token, or
    /// the listing of an app's root.
    Damaged(Text),
    /// The app's root has no program for this word, which is empty where the app has none.
    NoProgram(AcName, Text),
    /// The spawner failed.
    SpawnFault,
    /// The directory failed.
    DirFault,
    /// The directory answered a change as if the pod weren't this process's own.
    Stray,
    /// Memory ran out.
    NoMemory,
}

impl RunError {
    /// An equal error. `NoMemory` where memory ran out.
    pub fn copy(&self) -> Result<RunError, memory::NoMemory>
        ensures { IfOk result (λ copy. copy ≡ self.now) }
    {
        match self {
            RunError::NoManifest => Ok(RunError::NoManifest),
            RunError::Damaged(path) => Ok(RunError::Damaged(path.copy()?)),
            RunError::NoProgram(app, word) => Ok(RunError::NoProgram(app.copy()?, word.copy()?)),
            RunError::SpawnFault => Ok(RunError::SpawnFault),
            RunError::DirFault => Ok(RunError::DirFault),
            RunError::Stray => Ok(RunError::Stray),
            RunError::NoMemory => Ok(RunError::NoMemory),
        }
    }
}

/// What stops the run of a pod whose programs were found.
#[derive(Clone, Copy, Debug, PartialEq, Eq)]
pub(crate) enum Fault {
    Spawn,
    Dir,
    Stray,
    NoMemory,
}

pub(crate) fn out_of_memory(_error: AllocError) -> Fault
    ensures { result ≡ Fault.NoMemory }
{
    Fault::NoMemory
}

pub(crate) fn no_memory(_error: NoMemory) -> RunError
    ensures { result ≡ RunError.NoMemory }
{
    RunError::NoMemory
}

pub(crate) fn spawn_fault(error: SpawnError) -> Fault
    ensures { result ≡ spawn_fault error }
{
    match error {
        SpawnError::Failed => Fault::Spawn,
        SpawnError::NoMemory => Fault::NoMemory,
    }
}

/// What it means that the directory refused a change in the pod that this process runs.
pub(crate) fn change_fault(error: DirError) -> Fault
    ensures { result ≡ change_fault error }
{
    match error {
        DirError::Failed => Fault::Dir,
        DirError::NoMemory => Fault::NoMemory,
        _ => Fault::Stray,
    }
}

pub(crate) fn load_refusal(error: LoadError) -> RunError
    ensures { result ≡ load_refusal error }
{
    match error {
        LoadError::NoManifest => RunError::NoManifest,
        LoadError::Damaged(path) => RunError::Damaged(path),
        LoadError::NoProgram(app, word) => RunError::NoProgram(app, word),
        LoadError::DirFault => RunError::DirFault,
        LoadError::NoMemory => RunError::NoMemory,
    }
}

pub(crate) fn fault_refusal(fault: Fault) -> RunError
    ensures { result ≡ fault_refusal fault }
{
    match fault {
        Fault::Spawn => RunError::SpawnFault,
        Fault::Dir => RunError::DirFault,
        Fault::Stray => RunError::Stray,
        Fault::NoMemory => RunError::NoMemory,
    }
}
