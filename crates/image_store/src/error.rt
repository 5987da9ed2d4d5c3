// The refusals of lower calls.
ghost use Rattle.std.specs.Prelude.{◌≡◌};
ghost use Rattle.image_store.specs.Refusals.{bundle_refusal, lock_refusal, change_refusal};

use ac_types::NoMemory;
use bundle_image::BundleRefusal;
use dir_files::LockError;
use dir_trait::{Area, DirError};
use image_reading::StoreError;

pub(crate) fn bundle_refusal(refusal: BundleRefusal) -> StoreError
    ensures { result ≡ bundle_refusal refusal }
{
    match refusal {
        BundleRefusal::NoFile(name) => StoreError::NoFile(name),
        BundleRefusal::Manifest(fault) => StoreError::Fault(fault),
        BundleRefusal::Id(_) => StoreError::BadId,
        BundleRefusal::Listing(error) => StoreError::ListingError(error),
        BundleRefusal::BadKind(path) => StoreError::BadKind(path),
        BundleRefusal::BundleFault => StoreError::BundleFault,
        BundleRefusal::NoMemory => StoreError::NoMemory,
    }
}

pub(crate) fn lock_refusal(area: Area, error: LockError) -> StoreError
    ensures { result ≡ lock_refusal area error }
{
    match error {
        LockError::Busy => StoreError::Busy(area),
        LockError::DirFault => StoreError::DirFault,
        LockError::NoMemory => StoreError::NoMemory,
    }
}

pub(crate) fn out_of_memory(_error: NoMemory) -> StoreError
    ensures { result ≡ StoreError.NoMemory }
{
    StoreError::NoMemory
}

/// What a refused make or move of the folder means.
pub(crate) fn change_refusal(error: DirError) -> StoreError
    ensures { result ≡ change_refusal error }
{
    match error {
        DirError::Failed => StoreError::DirFault,
        DirError::NoMemory => StoreError::NoMemory,
        _ => StoreError::Stray,
    }
}
