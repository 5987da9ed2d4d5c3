// Why a folder wasn't filled.
ghost use Rattle.std.specs.Prelude.{◌≡◌, ℕ, false};
ghost use Rattle.dir_trait.specs.Replies.{is_fault};

use dir_trait::DirError;

/// Why a folder wasn't filled.
#[derive(Clone, Copy, Debug, PartialEq, Eq)]
pub enum BuildError {
    /// The file of the plan's entry with this number, counted from 0, is missing where it is copied
    /// from, or has another size or SHA-512.
    Unlike(usize),
    /// What the files are copied from failed.
    SourceFault,
    /// The directory failed.
    DirFault,
    /// The directory gave an answer that a folder that this process makes doesn't explain.
    Stray,
    /// Memory ran out.
    NoMemory,
}

/// What a refused change means to the one that makes the folder.
pub fn build_error(error: DirError) -> BuildError
    ensures fault { result ≡ BuildError.DirFault → error ≡ DirError.Failed }
    ensures stray { result ≡ BuildError.Stray → is_fault error ≡ false }
    ensures source { result ≡ BuildError.SourceFault → ⊥ }
    ensures unlike { (n : ℕ) → result ≡ BuildError.Unlike n → ⊥ }
{
    match error {
        DirError::Failed => BuildError::DirFault,
        DirError::NoMemory => BuildError::NoMemory,
        _ => BuildError::Stray,
    }
}
