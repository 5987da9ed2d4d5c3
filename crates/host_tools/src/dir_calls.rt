// Calls on a directory by a process that has begun, and goes on after them.
ghost use Rattle.std.specs.Prelude.{◌≡◌, true, IfOk};
ghost use Rattle.dir_model.specs.Paths.{is_path};
ghost use Rattle.dir_model.specs.Local.{IsActive, IsOpen, IsUnlocked};

use dir_trait::{Dir, DirError, Handle, Mode, Spot, Target, Which};
use std::alloc::Global;

/// Opens what a target names.
fn open<D: Dir>(dir: &mut D, alloc: Global, target: &Target) -> Result<Handle, DirError>
    requires { IsActive (D.shown dir.old).local }
    ensures active { IsActive (D.shown dir.new).local }
    ensures open { IfOk result (λ handle. IsOpen (D.shown dir.new).local handle) }
    ensures unlocked { IfOk result (λ handle. IsUnlocked (D.shown dir.new).local handle) }
{
    match target {
        Target::Own(spot) => dir.open(alloc, *spot, Which::Own),
        Target::Claim(spot) => dir.open(alloc, *spot, Which::Claim),
        Target::Gate(area) => dir.open_area(alloc, *area),
    }
}

/// Asks for the lock of a handle, and gives the handle up.
fn try_once<D: Dir>(dir: &mut D, alloc: Global, handle: Handle, mode: Mode) -> Result<(), DirError>
    requires active { IsActive (D.shown dir.old).local }
    requires open { IsOpen (D.shown dir.old).local handle }
    requires unlocked { IsUnlocked (D.shown dir.old).local handle }
    ensures { IsActive (D.shown dir.new).local }
{
    let answer = dir.try_lock(alloc, handle, mode);
    dir.close(handle);
    answer
}

/// Opens what a target names and asks for its lock. The handle stays open, or is closed at once.
pub fn lock<D: Dir>(
    dir: &mut D,
    alloc: Global,
    target: &Target,
    mode: Mode,
    stays: bool,
) -> Result<(), DirError>
    requires { IsActive (D.shown dir.old).local }
    ensures { IsActive (D.shown dir.new).local }
{
    let handle = open(dir, alloc, target)?;
    if stays {
        dir.try_lock(alloc, handle, mode)
    } else {
        try_once(dir, alloc, handle, mode)
    }
}

/// What is done to a folder.
#[derive(Clone, Copy)]
pub enum FolderCall {
    Make,
    Remove,
}

/// Makes or removes a folder.
pub fn on_folder<D: Dir>(
    dir: &mut D,
    alloc: Global,
    call: FolderCall,
    spot: Spot,
) -> Result<(), DirError>
    requires { IsActive (D.shown dir.old).local }
    ensures { IsActive (D.shown dir.new).local }
{
    match call {
        FolderCall::Make => dir.make_folder(alloc, spot),
        FolderCall::Remove => dir.remove_folder(alloc, spot),
    }
}

/// What is done to something in a folder.
#[derive(Clone, Copy)]
pub enum InnerCall {
    MakeDir,
    MakeFile,
    Sync,
    RemoveFile,
    RemoveDir,
}

/// Makes, syncs or removes something in a folder.
pub fn on_inner<D: Dir>(
    dir: &mut D,
    alloc: Global,
    call: InnerCall,
    spot: Spot,
    path: &str,
) -> Result<(), DirError>
    requires active { IsActive (D.shown dir.old).local }
    requires path { is_path path.now ≡ true }
    ensures { IsActive (D.shown dir.new).local }
{
    match call {
        InnerCall::MakeDir => dir.make_dir_in(alloc, spot, path),
        InnerCall::MakeFile => dir.make_file_in(alloc, spot, path),
        InnerCall::Sync => dir.sync_in(alloc, spot, path),
        InnerCall::RemoveFile => dir.remove_file_in(alloc, spot, path),
        InnerCall::RemoveDir => dir.remove_dir_in(alloc, spot, path),
    }
}
