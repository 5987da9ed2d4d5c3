// How what an app left in its root is removed. A program that outlived its pod may put links there
// meanwhile, so the directory above is opened name by name, each seen from the one before it.
ghost use Rattle.std.specs.Prelude.{◌≡◌, ◌⊎◌, ◌++◌, true, codes, string_bytes, IfOk, IfErr};
ghost use Rattle.dir_model.specs.Replies.{is_fault};
ghost use Rattle.host_files.specs.Apps.{LiesInApp};

use crate::asks::{open_up_at, remove_left_at};
use crate::files::{list_folder, reachable};
use crate::place::{join, parted, path_of_folder};
use crate::refusals::{absent, fault, short, unlisted, unremoved};
use dir_trait::{Area, BundleKind, DirError, Spot};
use std::alloc::Global;
use std::fs;
use std::fs::{File, Metadata};
use std::io::ErrorKind;
use std::os::unix::fs::MetadataExt;
use std::os::unix::io::AsRawFd;
use std::rt::Files;

/// `Missing` where what was opened isn't the directory that was looked at.
fn check_same(found: &Metadata, opened: &Metadata) -> Result<(), DirError>
    ensures { IfErr result (λ e. e ≡ DirError.Missing) }
{
    if found.is_dir() && found.dev() == opened.dev() && found.ino() == opened.ino() {
        Ok(())
    } else {
        Err(DirError::Missing)
    }
}

/// Opens the directory at a path, and follows no link at its end.
fn open_directory<R: Files<File = File>>(
    rt: &R,
    alloc: Global,
    path: &str,
) -> Result<File, DirError>
    ensures { IfErr result (λ e. (e ≡ DirError.Missing) ⊎ (is_fault e ≡ true)) }
{
    let found = fs::symlink_metadata(rt, path).map_err(absent)?;
    let with_slash = format!(in alloc; "{path}/").map_err(short)?;
    let directory = File::open(rt, with_slash.as_str()).map_err(absent)?;
    let opened = directory.metadata().map_err(fault)?;
    check_same(&found, &opened)?;
    Ok(directory)
}

/// The path of something in an open directory.
fn path_from(alloc: Global, directory: &File, name: &str) -> Result<String, DirError>
    ensures { IfErr result (λ e. e ≡ DirError.NoMemory) }
{
    let number = directory.as_raw_fd();
    format!(in alloc; "/proc/self/fd/{number}/{name}").map_err(short)
}

/// Opens a directory in a folder, and follows no link on the way from the folder on.
fn open_stepwise<R: Files<File = File>>(
    rt: &R,
    alloc: Global,
    root: &str,
    spot: &Spot,
    inner: &str,
) -> Result<File, DirError>
    ensures { IfErr result (λ e. (e ≡ DirError.Missing) ⊎ (is_fault e ≡ true)) }
{
    let folder = path_of_folder(alloc, root, spot).map_err(short)?;
    let mut directory = open_directory(rt, alloc, folder.as_str())?;
    'names: for name in inner.split('/') {
        let path = path_from(alloc, &directory, name)?;
        directory = open_directory(rt, alloc, path.as_str())?;
    }
    Ok(directory)
}

/// Lets this user read and write a directory where an app may have written.
fn open_up<R: Files>(rt: &R, path: &str, spot: &Spot, inner: &str) -> Result<(), DirError>
    requires area { spot.now.area ≡ Area.ExitedGarbage }
    requires app { LiesInApp inner.now }
    ensures { IfErr result (λ e. (e ≡ DirError.Missing) ⊎ (is_fault e ≡ true)) }
{
    if fs::symlink_metadata(rt, path).map_err(absent)?.is_dir() {
        open_up_at(rt, path, spot, inner).map_err(absent)
    } else {
        Err(DirError::Missing)
    }
}

fn push(todo: &mut Vec<String>, path: String) -> Result<(), DirError>
    ensures { IfErr result (λ e. e ≡ DirError.NoMemory) }
{
    match todo.push(path) {
        Ok(()) => Ok(()),
        Err(_) => Err(DirError::NoMemory),
    }
}

/// The directories in a directory, by their paths from the one that is open.
fn add_directories<R: Files + AllocGlobal + Clone + Drop>(
    rt: &R,
    alloc: Global,
    path: &str,
    name: &str,
    todo: &mut Vec<String>,
) -> Result<(), DirError>
    ensures { IfErr result (λ e. is_fault e ≡ true) }
{
    let listing = list_folder(rt, alloc, path, reachable(path.len())).map_err(unlisted)?;
    for item in listing.as_slice() {
        if item.kind == BundleKind::Dir {
            let below = join(alloc, name, item.name.as_str()).map_err(short)?;
            push(todo, below)?;
        }
    }
    Ok(())
}

/// Lets this user read and write a directory, and each below it that can be told and reached.
fn open_up_all<R: Files + AllocGlobal + Clone + Drop>(
    rt: &R,
    alloc: Global,
    directory: &File,
    name: &str,
    spot: &Spot,
    inner: &str,
) -> Result<(), DirError>
    requires area { spot.now.area ≡ Area.ExitedGarbage }
    requires app { LiesInApp inner.now }
    ensures { IfErr result (λ e. (e ≡ DirError.Missing) ⊎ (is_fault e ≡ true)) }
{
    let mut todo = Vec::new(alloc);
    push(&mut todo, String::from_str(alloc, name).map_err(short)?)?;
    'todo: for _ in 0..u64::MAX {
        let Some(next) = todo.pop() else {
            return Ok(());
        };
        let path = path_from(alloc, directory, next.as_str())?;
        open_up(rt, path.as_str(), spot, inner)?;
        add_directories(rt, alloc, path.as_str(), next.as_str(), &mut todo)?;
    }
    Err(DirError::Failed)
}

/// Lets this user read a directory where an app may have written.
pub fn open_up_inside<R: Files<File = File>>(
    rt: &R,
    alloc: Global,
    root: &str,
    spot: &Spot,
    inner: &str,
) -> Result<(), DirError>
    requires area { spot.now.area ≡ Area.ExitedGarbage }
    requires app { LiesInApp inner.now }
    ensures { IfErr result (λ e. (e ≡ DirError.Missing) ⊎ (is_fault e ≡ true)) }
{
    let (above, rest) = parted(inner);
    let directory = open_stepwise(rt, alloc, root, spot, above)?;
    let path = path_from(alloc, &directory, rest.trim_start_matches('/'))?;
    open_up(rt, path.as_str(), spot, inner)
}

/// Removes a directory with all that stands in it, where an app may have left it that was started. Neither a
/// path that is longer than the system's is a hindrance, nor a name of any bytes, nor a directory that this
/// user may not write and that can be told and reached.
pub fn remove_left<R: Files<File = File> + AllocGlobal + Clone + Drop>(
    rt: &R,
    alloc: Global,
    root: &str,
    spot: &Spot,
    inner: &str,
) -> Result<(), DirError>
    requires area { spot.now.area ≡ Area.ExitedGarbage }
    requires app { LiesInApp inner.now }
    ensures { IfErr result (λ e. (e ≡ DirError.Missing) ⊎ (e ≡ DirError.NotEmpty) ⊎ (is_fault e ≡ true)) }
{
    let (above, rest) = parted(inner);
    let name = rest.trim_start_matches('/');
    let directory = open_stepwise(rt, alloc, root, spot, above)?;
    let path = path_from(alloc, &directory, name)?;
    if !fs::symlink_metadata(rt, path.as_str())
        .map_err(absent)?
        .is_dir()
    {
        return Err(DirError::Missing);
    }
    match remove_left_at(rt, path.as_str(), spot, inner) {
        Err(error) if error.kind() == ErrorKind::PermissionDenied => {
            open_up_all(rt, alloc, &directory, name, spot, inner)?;
            remove_left_at(rt, path.as_str(), spot, inner).map_err(unremoved)
        }
        answer => answer.map_err(unremoved),
    }
}
