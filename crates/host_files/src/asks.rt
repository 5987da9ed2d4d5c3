// What the system is asked of the data folder: one call of std each, at the path that is named beside it.
ghost use Rattle.std.specs.Prelude.{◌≡◌, ◌++◌, codes};
ghost use Rattle.host_files.specs.Apps.{LiesInApp};
ghost use Rattle.host_files.specs.Places.{area_path, folder_path, inner_path};

use dir_trait::{Area, Spot};
use std::fs::{File, Metadata, OpenOptions, Permissions};
use std::os::unix::fs::PermissionsExt;
use std::rt::Files;
use std::{fs, io};

/// Makes an area, and the folders above it, where they are missing.
pub fn make_area_at<R: Files>(rt: &R, path: &str, root: &str, area: Area) -> io::Result<()>
    requires { path.now ≡ area_path root.now area }
{
    fs::create_dir_all(rt, path)
}

/// Looks at an area.
pub fn look_at_area<R: Files>(rt: &R, path: &str, root: &str, area: Area) -> io::Result<Metadata>
    requires { path.now ≡ area_path root.now area }
{
    fs::metadata(rt, path)
}

/// Opens an area.
pub fn open_area_at<R: Files>(rt: &R, path: &str, root: &str, area: Area) -> io::Result<R::File>
    requires { path.now ≡ area_path root.now area ++ codes "/" }
{
    File::open(rt, path)
}

/// Looks at what stands behind a path in a folder. A link isn't followed.
pub fn look_at<R: Files>(
    rt: &R,
    path: &str,
    root: &str,
    spot: &Spot,
    inner: &str,
) -> io::Result<Metadata>
    requires { path.now ≡ inner_path root.now spot.now inner.now }
{
    fs::symlink_metadata(rt, path)
}

/// Opens a directory behind a path in a folder. The path ends in `/`, so that the system opens nothing
/// but a directory.
pub fn open_dir_at<R: Files>(
    rt: &R,
    path: &str,
    root: &str,
    spot: &Spot,
    inner: &str,
) -> io::Result<R::File>
    requires { path.now ≡ inner_path root.now spot.now inner.now ++ codes "/" }
{
    File::open(rt, path)
}

/// Opens a file behind a path in a folder.
pub fn open_file_at<R: Files>(
    rt: &R,
    options: &OpenOptions,
    path: &str,
    root: &str,
    spot: &Spot,
    inner: &str,
) -> io::Result<R::File>
    requires { path.now ≡ inner_path root.now spot.now inner.now }
{
    options.open(rt, path)
}

/// Makes a directory behind a path in a folder.
pub fn make_dir_at<R: Files>(
    rt: &R,
    path: &str,
    root: &str,
    spot: &Spot,
    inner: &str,
) -> io::Result<()>
    requires { path.now ≡ inner_path root.now spot.now inner.now }
{
    fs::create_dir(rt, path)
}

/// Makes a file behind a path in a folder, where nothing stands.
pub fn make_file_at<R: Files>(
    rt: &R,
    path: &str,
    root: &str,
    spot: &Spot,
    inner: &str,
) -> io::Result<R::File>
    requires { path.now ≡ inner_path root.now spot.now inner.now }
{
    File::create_new(rt, path)
}

/// Removes what stands behind a path in a folder and is no directory.
pub fn remove_file_at<R: Files>(
    rt: &R,
    path: &str,
    root: &str,
    spot: &Spot,
    inner: &str,
) -> io::Result<()>
    requires { path.now ≡ inner_path root.now spot.now inner.now }
{
    fs::remove_file(rt, path)
}

/// Removes an empty directory behind a path in a folder.
pub fn remove_dir_at<R: Files>(
    rt: &R,
    path: &str,
    root: &str,
    spot: &Spot,
    inner: &str,
) -> io::Result<()>
    requires { path.now ≡ inner_path root.now spot.now inner.now }
{
    fs::remove_dir(rt, path)
}

/// Lets the owner of a directory read, write and enter it, where an app may have written that was started.
pub fn open_up_at<R: Files>(rt: &R, path: &str, spot: &Spot, inner: &str) -> io::Result<()>
    requires area { spot.now.area ≡ Area.ExitedGarbage }
    requires app { LiesInApp inner.now }
{
    fs::set_permissions(rt, path, Permissions::from_mode(0o700))
}

/// Removes a directory with all that stands in it, which an app may have left that was started. The path ends
/// with the directory's name, seen from an open directory. Std goes by directories that it has opened, and
/// follows no link.
pub fn remove_left_at<R: Files + AllocGlobal>(
    rt: &R,
    path: &str,
    spot: &Spot,
    inner: &str,
) -> io::Result<()>
    requires area { spot.now.area ≡ Area.ExitedGarbage }
    requires app { LiesInApp inner.now }
{
    fs::remove_dir_all(rt, path)
}

/// Moves a folder.
pub fn move_at<R: Files>(
    rt: &R,
    source: &str,
    target: &str,
    root: &str,
    from: &Spot,
    to: &Spot,
) -> io::Result<()>
    requires source { source.now ≡ folder_path root.now from.now }
    requires target { target.now ≡ folder_path root.now to.now }
{
    fs::rename(rt, source, target)
}
