// Why a lock wasn't had.
ghost use Rattle.std.specs.Prelude.{◌≡◌, true};
ghost use Rattle.dir_files.specs.AreaLocks.{is_lock_refusal};

use dir_trait::DirError;

/// Why a lock wasn't had.
#[derive(Clone, Copy, Debug, PartialEq, Eq)]
pub enum LockError {
    /// Another handle holds it in a mode that conflicts.
    Busy,
    /// The directory failed.
    DirFault,
    /// Memory ran out.
    NoMemory,
}

/// What the refusal of a lock means to the one who asked for it.
pub fn lock_error(error: DirError) -> LockError
    requires { is_lock_refusal error ≡ true }
    ensures busy { result ≡ LockError.Busy → error ≡ DirError.Locked }
    ensures fault { result ≡ LockError.DirFault → error ≡ DirError.Failed }
    ensures memory { result ≡ LockError.NoMemory → error ≡ DirError.NoMemory }
{
    match error {
        DirError::Locked => LockError::Busy,
        DirError::Failed => LockError::DirFault,
        DirError::NoMemory => LockError::NoMemory,
        _ => unreachable!(),
    }
}
