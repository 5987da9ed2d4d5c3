// Why the store gives no answer.
ghost use Rattle.std.specs.Prelude.{◌≡◌, true, IfOk};
ghost use Rattle.dir_model.specs.Replies.{is_fault};
ghost use Rattle.image_reading.specs.Refusals.{IsStoreFailure};

use ac_types::{Fault, NoMemory, StoreKey, Text};
use dir_files::ReadError;
use dir_trait::{Area, DirError};
use std::alloc::AllocFailed;
use tree_digest::ListingError;

/// Why the store gives no answer, or takes no image.
#[derive(Drop)]
pub enum StoreError {
    /// The bundle has no such file.
    NoFile(Text),
    /// The manifest's first fault.
    Fault(Fault),
    /// The file `id` holds no image ID.
    BadId,
    /// The listing's first fault, or a limit that it passes.
    ListingError(ListingError),
    /// What stands at the path is of no kind that an image carries.
    BadKind(Text),
    /// Another process holds the lock of the area in a mode that conflicts.
    Busy(Area),
    /// The file at the path is missing, has no reading or differs from its line in the listing. In the
    /// store the path begins with the image's key, in a bundle it is relative to that.
    Damaged(Text),
    /// An image with this key is stored already, and with other contents: its digest, and the new one's.
    IdConflict(StoreKey, [u8; 64], [u8; 64]),
    /// No image has this key.
    NoImage(StoreKey),
    /// The bundle failed.
    BundleFault,
    /// The directory failed.
    DirFault,
    /// Memory ran out.
    NoMemory,
    /// The directory answered a change as if the folder weren't this process's own.
    Stray,
}

impl StoreError {
    /// An equal error.
    pub fn copy(&self) -> Result<StoreError, NoMemory>
        ensures { IfOk result (λ copy. copy ≡ self.now) }
    {
        Ok(match self {
            StoreError::NoFile(path) => StoreError::NoFile(path.copy()?),
            StoreError::Fault(fault) => StoreError::Fault(fault.copy()?),
            StoreError::BadId => StoreError::BadId,
            StoreError::ListingError(error) => StoreError::ListingError(*error),
            StoreError::BadKind(path) => StoreError::BadKind(path.copy()?),
            StoreError::Busy(area) => StoreError::Busy(*area),
            StoreError::Damaged(path) => StoreError::Damaged(path.copy()?),
            StoreError::IdConflict(key, stored, new) => StoreError::IdConflict(*key, *stored, *new),
            StoreError::NoImage(key) => StoreError::NoImage(*key),
            StoreError::BundleFault => StoreError::BundleFault,
            StoreError::DirFault => StoreError::DirFault,
            StoreError::NoMemory => StoreError::NoMemory,
            StoreError::Stray => StoreError::Stray,
        })
    }
}

pub(crate) fn out_of_memory(_error: NoMemory) -> StoreError
    ensures { result ≡ StoreError.NoMemory }
{
    StoreError::NoMemory
}

pub(crate) fn short_of_memory<T: Drop>(_refused: AllocFailed<T>) -> StoreError
    ensures { result ≡ StoreError.NoMemory }
{
    StoreError::NoMemory
}

/// The refusal where the directory failed or memory ran out.
pub(crate) fn fault_error(error: DirError) -> StoreError
    requires { is_fault error ≡ true }
    ensures fault { result ≡ StoreError.DirFault → error ≡ DirError.Failed }
    ensures outside { IsStoreFailure result }
{
    match error {
        DirError::Failed => StoreError::DirFault,
        DirError::NoMemory => StoreError::NoMemory,
        _ => unreachable!(),
    }
}

/// The refusal of a read of a file.
pub(crate) fn read_error(error: ReadError) -> StoreError
    ensures fault { result ≡ StoreError.DirFault → error ≡ ReadError.DirFault }
    ensures outside { IsStoreFailure result }
{
    match error {
        ReadError::DirFault => StoreError::DirFault,
        ReadError::NoMemory => StoreError::NoMemory,
    }
}
