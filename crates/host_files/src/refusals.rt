// What a failure of the system means for the data folder. Each is a value of the error's kind alone.
ghost use Rattle.std.specs.Prelude.{◌≡◌, ◌⊎◌, true};
ghost use Rattle.std.specs.IoError.{error_kind};
ghost use Rattle.dir_model.specs.Replies.{is_fault};
ghost use Rattle.host_files.specs.Refusals.{fault_error, absent_error, folder_error, make_error, move_error, remove_error};

use dir_trait::{BundleError, DirError};
use std::alloc::AllocError;
use std::io;
use std::io::ErrorKind;

/// Want of memory.
pub fn short(_error: AllocError) -> DirError
    ensures { result ≡ DirError.NoMemory }
{
    DirError::NoMemory
}

/// A failure of the system, where it means nothing else.
pub fn fault(error: io::Error) -> DirError
    ensures value { result ≡ fault_error (error_kind error) }
    ensures refusals { is_fault result ≡ true }
{
    match error.kind() {
        ErrorKind::OutOfMemory => DirError::NoMemory,
        _ => DirError::Failed,
    }
}

/// Why something wasn't opened, looked at or removed as a file.
pub fn absent(error: io::Error) -> DirError
    ensures value { result ≡ absent_error (error_kind error) }
    ensures refusals { (result ≡ DirError.Missing) ⊎ (is_fault result ≡ true) }
{
    match error.kind() {
        ErrorKind::NotFound | ErrorKind::NotADirectory | ErrorKind::IsADirectory => {
            DirError::Missing
        }
        ErrorKind::OutOfMemory => DirError::NoMemory,
        _ => DirError::Failed,
    }
}

/// Why a folder wasn't made.
pub fn unmade_folder(error: io::Error) -> DirError
    ensures value { result ≡ folder_error (error_kind error) }
    ensures refusals { (result ≡ DirError.Exists) ⊎ (is_fault result ≡ true) }
{
    match error.kind() {
        ErrorKind::AlreadyExists => DirError::Exists,
        ErrorKind::OutOfMemory => DirError::NoMemory,
        _ => DirError::Failed,
    }
}

/// Why a directory or a file in a folder wasn't made.
pub fn unmade(error: io::Error) -> DirError
    ensures value { result ≡ make_error (error_kind error) }
    ensures refusals { (result ≡ DirError.Exists) ⊎ (result ≡ DirError.Missing) ⊎ (is_fault result ≡ true) }
{
    match error.kind() {
        ErrorKind::AlreadyExists => DirError::Exists,
        ErrorKind::NotFound | ErrorKind::NotADirectory => DirError::Missing,
        ErrorKind::OutOfMemory => DirError::NoMemory,
        _ => DirError::Failed,
    }
}

/// Why a folder that was looked at wasn't moved.
pub fn unmoved(error: io::Error) -> DirError
    ensures value { result ≡ move_error (error_kind error) }
    ensures refusals { (result ≡ DirError.Missing) ⊎ (result ≡ DirError.Exists) ⊎ (is_fault result ≡ true) }
{
    match error.kind() {
        ErrorKind::NotFound => DirError::Missing,
        ErrorKind::AlreadyExists | ErrorKind::DirectoryNotEmpty => DirError::Exists,
        ErrorKind::OutOfMemory => DirError::NoMemory,
        _ => DirError::Failed,
    }
}

/// Why a directory wasn't removed.
pub fn unremoved(error: io::Error) -> DirError
    ensures value { result ≡ remove_error (error_kind error) }
    ensures refusals { (result ≡ DirError.Missing) ⊎ (result ≡ DirError.NotEmpty) ⊎ (is_fault result ≡ true) }
{
    match error.kind() {
        ErrorKind::NotFound | ErrorKind::NotADirectory => DirError::Missing,
        ErrorKind::AlreadyExists | ErrorKind::DirectoryNotEmpty => DirError::NotEmpty,
        ErrorKind::OutOfMemory => DirError::NoMemory,
        _ => DirError::Failed,
    }
}

/// A directory that was opened has failed where it can't be listed.
pub fn unlisted(error: BundleError) -> DirError
    ensures memory { error ≡ BundleError.NoMemory → result ≡ DirError.NoMemory }
    ensures fault { is_fault result ≡ true }
{
    match error {
        BundleError::NoMemory => DirError::NoMemory,
        BundleError::Missing | BundleError::Failed => DirError::Failed,
    }
}
