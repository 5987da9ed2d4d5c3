// Why a bundle holds no image.
ghost use Rattle.std.specs.Prelude.{◌≡◌, ◌⊎◌};
ghost use Rattle.bundle_image.specs.Refusals.{of_listing, IsOfMissing};

use ac_types::{BadId, Fault, NoMemory, Text};
use dir_trait::BundleError;
use std::alloc::AllocError;
use tree_digest::ListingError;

/// Why a bundle holds no image. Paths are relative to the bundle.
#[derive(Drop)]
pub enum BundleRefusal {
    /// No such file stands in the bundle.
    NoFile(Text),
    /// The file `manifest` is no image manifest; its first fault.
    Manifest(Fault),
    /// The file `id` holds no image ID.
    Id(BadId),
    /// The file `tree` is no listing, or what was walked passes a limit of listings.
    Listing(ListingError),
    /// What stands at the path is of no kind that an image carries, or its path or its target has no
    /// reading.
    BadKind(Text),
    /// The bundle failed.
    BundleFault,
    /// Memory ran out.
    NoMemory,
}

pub(crate) fn out_of_memory(_error: NoMemory) -> BundleRefusal
    ensures { result ≡ BundleRefusal.NoMemory }
{
    BundleRefusal::NoMemory
}

pub(crate) fn no_memory(_error: AllocError) -> BundleError
    ensures { result ≡ BundleError.NoMemory }
{
    BundleError::NoMemory
}

pub(crate) fn short_of_memory(_error: NoMemory) -> BundleError
    ensures { result ≡ BundleError.NoMemory }
{
    BundleError::NoMemory
}

pub(crate) fn listing_refusal(error: ListingError) -> BundleRefusal
    ensures { result ≡ of_listing error }
{
    match error {
        ListingError::NoMemory => BundleRefusal::NoMemory,
        _ => BundleRefusal::Listing(error),
    }
}

/// The refusal of a call of the bundle, where `missing` says what it means that nothing of the wanted
/// kind stands there.
pub(crate) fn bundle_refusal(error: BundleError, missing: BundleRefusal) -> BundleRefusal
    ensures { IsOfMissing missing error result }
{
    match error {
        BundleError::Missing => missing,
        BundleError::Failed => BundleRefusal::BundleFault,
        BundleError::NoMemory => BundleRefusal::NoMemory,
    }
}
