// What a failure of the system means for a spawner.
ghost use Rattle.std.specs.Prelude.{◌≡◌, ◌≤◌, ◌≢◌};
ghost use Rattle.std.specs.IoError.{error_kind};
ghost use Rattle.dir_model.specs.Causes.{Rose};
ghost use Rattle.dir_host.specs.Counts.{CountsRefusal};
ghost use Rattle.host_spawner.specs.Refusals.{spawn_error, spawn_listing_refusal};

use spawner::SpawnError;
use std::alloc::AllocError;
use std::io;
use std::io::ErrorKind;
use tree_digest::ListingError;

/// Want of memory.
pub fn short(_error: AllocError) -> SpawnError
    ensures { result ≡ SpawnError.NoMemory }
{
    SpawnError::NoMemory
}

/// A failure of the system.
pub fn refusal(error: io::Error) -> SpawnError
    ensures { result ≡ spawn_error (error_kind error) }
{
    match error.kind() {
        ErrorKind::OutOfMemory => SpawnError::NoMemory,
        _ => SpawnError::Failed,
    }
}

/// A text that is no listing.
pub fn no_listing(error: ListingError) -> SpawnError
    ensures { result ≡ spawn_listing_refusal error }
{
    match error {
        ListingError::NoMemory => SpawnError::NoMemory,
        _ => SpawnError::Failed,
    }
}

/// Counts a failure, and hands the refusal on.
pub fn counted(faults: &mut u64, error: SpawnError) -> SpawnError
    ensures same { result ≡ error }
    ensures kept { faults.old ≤ faults.new }
    ensures cause { result ≡ SpawnError.Failed → Rose faults.old faults.new }
    ensures counts { CountsRefusal SpawnError.Failed result faults.old faults.new }
{
    if error == SpawnError::Failed {
        *faults = faults.saturating_add(1);
    }
    error
}
