// Why a connection wasn't served, or a pod not looked for.
ghost use Rattle.std.specs.Prelude.{◌≡◌, true, Err};
ghost use Rattle.phase_read.specs.Faults.{IsLookFault};
ghost use Rattle.dir_trait.specs.Replies.{is_fault};
ghost use Rattle.metadata.specs.Service.{IsRefusedLink};

use dir_files::ReadError;
use dir_trait::DirError;
use listener::LinkError;
use phase_read::LookError;

/// Why a connection wasn't served, or a pod not looked for.
#[derive(Clone, Copy, Debug, PartialEq, Eq)]
pub enum MetaError {
    /// The listener failed.
    LinkFault,
    /// The directory failed.
    DirFault,
    /// Memory ran out.
    NoMemory,
}

pub(crate) fn read_fault(error: ReadError) -> MetaError
    ensures fault { result ≡ MetaError.DirFault → error ≡ ReadError.DirFault }
    ensures memory { result ≡ MetaError.NoMemory → error ≡ ReadError.NoMemory }
    ensures link { result ≡ MetaError.LinkFault → ⊥ }
{
    match error {
        ReadError::DirFault => MetaError::DirFault,
        ReadError::NoMemory => MetaError::NoMemory,
    }
}

pub(crate) fn look_fault(error: LookError) -> MetaError
    requires { IsLookFault error }
    ensures fault { result ≡ MetaError.DirFault → error ≡ LookError.DirFault }
    ensures memory { result ≡ MetaError.NoMemory → error ≡ LookError.NoMemory }
    ensures link { result ≡ MetaError.LinkFault → ⊥ }
{
    match error {
        LookError::DirFault => MetaError::DirFault,
        LookError::NoMemory => MetaError::NoMemory,
        _ => unreachable!(),
    }
}

pub(crate) fn list_fault(error: DirError) -> MetaError
    requires { is_fault error ≡ true }
    ensures fault { result ≡ MetaError.DirFault → error ≡ DirError.Failed }
    ensures memory { result ≡ MetaError.NoMemory → error ≡ DirError.NoMemory }
    ensures link { result ≡ MetaError.LinkFault → ⊥ }
{
    match error {
        DirError::Failed => MetaError::DirFault,
        DirError::NoMemory => MetaError::NoMemory,
        _ => unreachable!(),
    }
}

pub(crate) fn link_fault(error: LinkError) -> MetaError
    ensures fault { result ≡ MetaError.LinkFault → error ≡ LinkError.Failed }
    ensures memory { result ≡ MetaError.NoMemory → error ≡ LinkError.NoMemory }
    ensures dir { result ≡ MetaError.DirFault → ⊥ }
    ensures refused { IsRefusedLink (Err result) }
{
    match error {
        LinkError::Failed => MetaError::LinkFault,
        LinkError::NoMemory => MetaError::NoMemory,
    }
}
