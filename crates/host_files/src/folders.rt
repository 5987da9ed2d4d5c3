// The data folder, whole folders and areas: how they are made, moved, synced and removed.
ghost use Rattle.std.specs.Prelude.{◌≡◌, true, IfErr};
ghost use Rattle.dir_model.specs.Replies.{is_fault, may_refuse};

use crate::asks::{make_dir_at, move_at, open_area_at, remove_dir_at};
use crate::looks::{check_dir, look};
use crate::place::{parted, path_inside, path_of_area, path_of_folder};
use crate::refusals::{fault, short, unmade_folder, unmoved, unremoved};
use dir_trait::{Area, DirError, Request, Spot};
use std::alloc::Global;
use std::fs::{DirBuilder, File, Permissions};
use std::io::ErrorKind;
use std::os::unix::fs::{DirBuilderExt, PermissionsExt};
use std::rt::Files;
use std::{fs, io};

// Nobody but its owner may enter the data folder.
const PRIVATE: u32 = 0o700;

/// How a folder is made that only its owner may enter, maybe with those above it that are missing.
fn private(with_parents: bool) -> DirBuilder {
    let mut builder = DirBuilder::new();
    builder.recursive(with_parents).mode(PRIVATE);
    builder
}

/// Makes a directory that only its owner may enter, and tells whether it did: one that stands stays as it is.
fn make_private<R: Files>(rt: &R, path: &str) -> io::Result<bool> {
    match private(false).create(rt, path) {
        Ok(()) => Ok(true),
        Err(error) if error.kind() == ErrorKind::AlreadyExists => Ok(false),
        Err(error) => Err(error),
    }
}

/// Makes the data folder where none stands: only its owner may enter it, whatever the umask. One that stands
/// keeps its mode.
pub fn make_root<R: Files>(rt: &R, root: &str) -> io::Result<()> {
    let root = root.trim_end_matches('/');
    let (above, _) = parted(root);
    private(true).create(rt, above)?;
    if make_private(rt, root)? {
        fs::set_permissions(rt, root, Permissions::from_mode(PRIVATE))?;
    }
    Ok(())
}

/// Makes an empty folder.
pub fn make_folder<R: Files>(rt: &R, alloc: Global, root: &str, spot: &Spot) -> Result<(), DirError>
    ensures { IfErr result (λ e. may_refuse (Request.MakeFolder spot.now) e ≡ true) }
{
    let path = path_inside(alloc, root, spot, "").map_err(short)?;
    make_dir_at(rt, path.as_str(), root, spot, "").map_err(unmade_folder)
}

/// `Exists` where something stands at the location to which a folder is to be moved. Another process may
/// have moved that very folder there since it was looked at: so it is looked at once more, and where it has
/// gone the answer is `Missing`. So `Exists` is true at the moment at which the target was looked at.
fn check_target<R: Files>(
    rt: &R,
    alloc: Global,
    root: &str,
    from: &Spot,
    to: &Spot,
) -> Result<(), DirError>
    ensures { IfErr result (λ e. may_refuse (Request.MoveFolder from.now to.now) e ≡ true) }
{
    match look(rt, alloc, root, to, "") {
        Ok(_) => {
            check_dir(rt, alloc, root, from, "")?;
            Err(DirError::Exists)
        }
        Err(DirError::Missing) => Ok(()),
        Err(error) => Err(error),
    }
}

/// Moves a folder. The system would put it in the place of an empty one, so this looks first; one
/// that isn't empty refuses by itself.
pub fn move_folder<R: Files>(
    rt: &R,
    alloc: Global,
    root: &str,
    from: &Spot,
    to: &Spot,
) -> Result<(), DirError>
    ensures { IfErr result (λ e. may_refuse (Request.MoveFolder from.now to.now) e ≡ true) }
{
    check_dir(rt, alloc, root, from, "")?;
    check_target(rt, alloc, root, from, to)?;
    let source = path_of_folder(alloc, root, from).map_err(short)?;
    let target = path_of_folder(alloc, root, to).map_err(short)?;
    move_at(rt, source.as_str(), target.as_str(), root, from, to).map_err(unmoved)
}

/// Removes an empty folder.
pub fn remove_folder<R: Files>(
    rt: &R,
    alloc: Global,
    root: &str,
    spot: &Spot,
) -> Result<(), DirError>
    ensures { IfErr result (λ e. may_refuse (Request.RemoveFolder spot.now) e ≡ true) }
{
    check_dir(rt, alloc, root, spot, "")?;
    let path = path_inside(alloc, root, spot, "").map_err(short)?;
    remove_dir_at(rt, path.as_str(), root, spot, "").map_err(unremoved)
}

/// Opens an area, as a file. The path ends in `/`, so that the system opens nothing but a directory.
pub fn open_area<R: Files<File = File>>(
    rt: &R,
    alloc: Global,
    root: &str,
    area: Area,
) -> Result<File, DirError>
    ensures { IfErr result (λ e. is_fault e ≡ true) }
{
    let mut path = path_of_area(alloc, root, area).map_err(short)?;
    path.push_str("/").map_err(short)?;
    open_area_at(rt, path.as_str(), root, area).map_err(fault)
}

/// Brings the names in an area to the disk.
pub fn sync_area<R: Files<File = File>>(
    rt: &R,
    alloc: Global,
    root: &str,
    area: Area,
) -> Result<(), DirError>
    ensures { IfErr result (λ e. is_fault e ≡ true) }
{
    open_area(rt, alloc, root, area)?.sync_all().map_err(fault)
}
