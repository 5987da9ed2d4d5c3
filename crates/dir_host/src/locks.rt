// Locks: what is opened for them, and how they are taken.
ghost use Rattle.std.specs.Prelude.{◌≡◌, ◌⊎◌, true, IfErr};
ghost use Rattle.dir_model.specs.Replies.{is_fault};
ghost use Rattle.dir_model.specs.Local.{is_handle_of, is_open_among};
ghost use Rattle.dir_host.specs.OpenFolders.{holdings_of};
ghost use Rattle.dir_host.specs.LockAnswers.{lock_answer};

use crate::open_folders::{OpenFolder, folder_of};
use dir_trait::{DirError, Handle, Mode, Spot, Which};
use host_files::{Reached, fault, for_reading, open_dir, open_regular};
use std::alloc::Global;
use std::fs::{File, TryLockError};
use std::rt::Files;

/// Opens a folder, or the file `pod` in it, for its lock.
pub fn open_lock<R: Files<File = File>>(
    rt: &R,
    alloc: Global,
    root: &str,
    reached: &mut Option<Reached>,
    spot: &Spot,
    which: Which,
) -> Result<File, DirError>
    ensures { IfErr result (λ e. (e ≡ DirError.Missing) ⊎ (is_fault e ≡ true)) }
{
    match which {
        Which::Own => open_dir(rt, alloc, root, reached, spot, ""),
        Which::Claim => open_regular(rt, alloc, &for_reading(), root, reached, spot, "pod"),
    }
}

/// What a request for a lock was answered.
fn lock_answer(answer: Result<(), TryLockError>) -> Result<(), DirError>
    ensures value { result ≡ lock_answer answer }
    ensures refusals { IfErr result (λ e. (e ≡ DirError.Locked) ⊎ (is_fault e ≡ true)) }
{
    match answer {
        Ok(()) => Ok(()),
        Err(TryLockError::WouldBlock) => Err(DirError::Locked),
        Err(TryLockError::Error(error)) => Err(fault(error)),
    }
}

/// Asks for the lock of what is open under the handle, and doesn't wait for it.
fn lock_folder(locked: &OpenFolder, handle: Handle, mode: Mode) -> Result<(), DirError>
    requires { is_handle_of handle locked.now.holding ≡ true }
    ensures { IfErr result (λ e. (e ≡ DirError.Locked) ⊎ (is_fault e ≡ true)) }
{
    match mode {
        Mode::Shared => lock_answer(locked.folder.try_lock_shared()),
        Mode::Exclusive => lock_answer(locked.folder.try_lock()),
    }
}

/// Asks for the lock of an open handle, and doesn't wait for it.
pub fn lock_handle(folders: &[OpenFolder], handle: Handle, mode: Mode) -> Result<(), DirError>
    requires { is_open_among handle (holdings_of folders.now) ≡ true }
    ensures { IfErr result (λ e. (e ≡ DirError.Locked) ⊎ (is_fault e ≡ true)) }
{
    match folder_of(folders, handle) {
        Some(folder) => lock_folder(folder, handle, mode),
        None => unreachable!(),
    }
}
