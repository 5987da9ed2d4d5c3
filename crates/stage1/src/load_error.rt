// Why it isn't known with what the apps of a pod start.
ghost use Rattle.std.specs.Prelude.{◌≡◌};
ghost use Rattle.stage1.specs.AppPlaces.{told_path};
ghost use Rattle.stage1.specs.LoadRefusals.{IsLoadFailure, IsLoadDamage};

use crate::run_place::told_path;
use ac_types::{AcName, NoMemory, Text};
use dir_files::ReadError;
use dir_trait::PodId;
use std::alloc::{AllocError, AllocFailed, Global};

/// Why it isn't known with what the apps of a pod start.
#[derive(Drop)]
pub enum LoadError {
    /// The file `pod` is missing or is no pod manifest.
    NoManifest,
    /// The file at the path, which begins with the pod's uuid, is missing or has no reading: the token, or
    /// an app's listing.
    Damaged(Text),
    /// The app's root has no program for this word, which is empty where the app has none.
    NoProgram(AcName, Text),
    /// The directory failed.
    DirFault,
    /// Memory ran out.
    NoMemory,
}

pub(crate) fn no_memory(_error: NoMemory) -> LoadError
    ensures { result ≡ LoadError.NoMemory }
{
    LoadError::NoMemory
}

pub(crate) fn no_room(_error: AllocError) -> LoadError
    ensures { result ≡ LoadError.NoMemory }
{
    LoadError::NoMemory
}

pub(crate) fn short_of_memory<T: Drop>(_refused: AllocFailed<T>) -> LoadError
    ensures { result ≡ LoadError.NoMemory }
{
    LoadError::NoMemory
}

/// The refusal of a read of a file.
pub(crate) fn read_error(error: ReadError) -> LoadError
    ensures fault { result ≡ LoadError.DirFault → error ≡ ReadError.DirFault }
    ensures outside { IsLoadFailure result }
{
    match error {
        ReadError::DirFault => LoadError::DirFault,
        ReadError::NoMemory => LoadError::NoMemory,
    }
}

/// The refusal where the file at the path in the pod's folder is damaged.
pub(crate) fn damaged(alloc: Global, pod: PodId, path: &str) -> LoadError
    ensures damage { IsLoadDamage (told_path pod path.now) result }
    ensures never_fails { result ≡ LoadError.DirFault → ⊥ }
{
    match told_path(alloc, pod, path) {
        Ok(path) => LoadError::Damaged(path),
        Err(error) => no_memory(error),
    }
}
