// The refusals of lower calls.
ghost use Rattle.std.specs.Prelude.{◌≡◌};
ghost use Rattle.image_removal.specs.Causes.{lock_refusal, change_refusal, move_refusal, delete_refusal};

use ac_types::StoreKey;
use dir_files::LockError;
use dir_trait::{Area, DirError};
use folder_removal::DeleteError;
use image_reading::StoreError;

pub(crate) fn lock_refusal(area: Area, error: LockError) -> StoreError
    ensures { result ≡ lock_refusal area error }
{
    match error {
        LockError::Busy => StoreError::Busy(area),
        LockError::DirFault => StoreError::DirFault,
        LockError::NoMemory => StoreError::NoMemory,
    }
}

/// What a refused move out of incoming means, or a refused listing.
pub(crate) fn change_refusal(error: DirError) -> StoreError
    ensures { result ≡ change_refusal error }
{
    match error {
        DirError::Failed => StoreError::DirFault,
        DirError::NoMemory => StoreError::NoMemory,
        _ => StoreError::Stray,
    }
}

/// What the refused move of an image means.
pub(crate) fn move_refusal(key: StoreKey, error: DirError) -> StoreError
    ensures { result ≡ move_refusal key error }
{
    match error {
        DirError::Missing => StoreError::NoImage(key),
        _ => change_refusal(error),
    }
}

pub(crate) fn delete_refusal(error: DeleteError) -> StoreError
    ensures { result ≡ delete_refusal error }
{
    match error {
        DeleteError::DirFault => StoreError::DirFault,
        DeleteError::Stray => StoreError::Stray,
        DeleteError::NoMemory => StoreError::NoMemory,
    }
}
