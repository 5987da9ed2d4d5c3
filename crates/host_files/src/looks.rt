// What stands in the data folder, by its own kind: no link is followed.
ghost use Rattle.std.specs.Prelude.{◌≡◌, ◌≢◌, ◌⊎◌, ◌↔◌, ◌++◌, true, [], string_bytes, Err, IsTrue, IsSomeAnd, IfOk, IfErr, OnOk};
ghost use Rattle.std.specs.Fs.{file_type, IsDir, IsFile};
ghost use Rattle.dir_model.specs.Replies.{is_fault};
ghost use Rattle.host_files.specs.Places.{inner_path, has_dots, rest_path};
ghost use Rattle.host_files.specs.Ways.{IsAt};

use crate::asks::{look_at, look_at_area};
use crate::place::{has_dots, parted, path_inside, path_of_area, push_rest};
use crate::refusals::{absent, fault, short};
use dir_trait::{Area, DirError, Spot};
use std::alloc::Global;
use std::fs::Metadata;
use std::os::unix::fs::MetadataExt;
use std::rt::Files;

/// What stands at a path.
#[derive(Clone, Copy, Debug, PartialEq, Eq)]
pub enum Found {
    Dir,
    File,
    /// A link, a device, a pipe or a socket.
    Other,
}

/// What the system told of a path.
fn found_of(metadata: Metadata) -> Found
    ensures dir { (result ≡ Found.Dir) ↔ IsDir (file_type metadata) }
    ensures file { (result ≡ Found.File) ↔ IsFile (file_type metadata) }
{
    if metadata.is_dir() {
        Found::Dir
    } else if metadata.is_file() {
        Found::File
    } else {
        Found::Other
    }
}

/// Fails where the area isn't a directory.
fn check_area<R: Files>(rt: &R, alloc: Global, root: &str, area: Area) -> Result<(), DirError>
    ensures { IfErr result (λ e. is_fault e ≡ true) }
{
    let path = path_of_area(alloc, root, area).map_err(short)?;
    match look_at_area(rt, path.as_str(), root, area) {
        Ok(metadata) if metadata.is_dir() => Ok(()),
        Ok(_) => Err(DirError::Failed),
        Err(error) => Err(fault(error)),
    }
}

/// What the system tells of what stands behind a path in a folder, which is this path of the system.
/// `Missing` where nothing does. Fails where the folder's area isn't a directory that can be looked at.
fn examine_at<R: Files>(
    rt: &R,
    alloc: Global,
    path: &str,
    root: &str,
    spot: &Spot,
    inner: &str,
) -> Result<Metadata, DirError>
    requires { path.now ≡ inner_path root.now spot.now inner.now }
    ensures { IfErr result (λ e. (e ≡ DirError.Missing) ⊎ (is_fault e ≡ true)) }
{
    match look_at(rt, path, root, spot, inner) {
        Ok(metadata) => Ok(metadata),
        Err(error) => {
            check_area(rt, alloc, root, spot.area)?;
            Err(absent(error))
        }
    }
}

/// What stands behind a path in a folder, told and refused as above.
pub fn look<R: Files>(
    rt: &R,
    alloc: Global,
    root: &str,
    spot: &Spot,
    inner: &str,
) -> Result<Found, DirError>
    ensures { IfErr result (λ e. (e ≡ DirError.Missing) ⊎ (is_fault e ≡ true)) }
{
    let path = path_inside(alloc, root, spot, inner).map_err(short)?;
    let metadata = examine_at(rt, alloc, path.as_str(), root, spot, inner)?;
    Ok(found_of(metadata))
}

/// `Missing` where no directory stands behind a path in a folder.
pub fn check_dir<R: Files>(
    rt: &R,
    alloc: Global,
    root: &str,
    spot: &Spot,
    inner: &str,
) -> Result<(), DirError>
    ensures { IfErr result (λ e. (e ≡ DirError.Missing) ⊎ (is_fault e ≡ true)) }
{
    match look(rt, alloc, root, spot, inner)? {
        Found::Dir => Ok(()),
        Found::File | Found::Other => Err(DirError::Missing),
    }
}

/// A directory in a folder that was reached last, by its path of the system: at each directory on the way
/// to it was looked.
#[derive(Drop)]
pub struct Reached {
    path: String,
    device: u64,
    number: u64,
}

/// `Missing` where the folder isn't there, or one of the directories above a path in it.
fn check_above<R: Files>(
    rt: &R,
    alloc: Global,
    root: &str,
    spot: &Spot,
    inner: &str,
) -> Result<(), DirError>
    ensures { IfErr result (λ e. (e ≡ DirError.Missing) ⊎ (is_fault e ≡ true)) }
{
    if inner.is_empty() {
        return Ok(());
    }
    check_dir(rt, alloc, root, spot, "")?;
    let bytes = inner.as_bytes();
    'above: for end in 0..bytes.len() {
        if bytes[end] == b'/' {
            let (above, _) = inner.split_at(end);
            check_dir(rt, alloc, root, spot, above)?;
        }
    }
    Ok(())
}

/// Goes to a directory, with a look at each on the way.
fn go<R: Files>(
    rt: &R,
    alloc: Global,
    path: &str,
    root: &str,
    spot: &Spot,
    inner: &str,
) -> Result<Reached, DirError>
    requires { path.now ≡ inner_path root.now spot.now inner.now }
    ensures at { IfOk result (λ reached. IsAt reached root.now spot.now inner.now) }
    ensures refusals { IfErr result (λ e. (e ≡ DirError.Missing) ⊎ (is_fault e ≡ true)) }
{
    check_above(rt, alloc, root, spot, inner)?;
    let found = examine_at(rt, alloc, path, root, spot, inner)?;
    if !found.is_dir() {
        return Err(DirError::Missing);
    }
    Ok(Reached {
        path: String::from_str(alloc, path).map_err(short)?,
        device: found.dev(),
        number: found.ino(),
    })
}

/// Whether the path leads to the directory that was reached by it.
fn leads_back<R: Files>(
    rt: &R,
    alloc: Global,
    reached: &Reached,
    path: &str,
    root: &str,
    spot: &Spot,
    inner: &str,
) -> bool
    requires { path.now ≡ inner_path root.now spot.now inner.now }
    ensures { IsTrue result → IsAt reached.now root.now spot.now inner.now }
{
    if reached.path.as_str() != path {
        return false;
    }
    match examine_at(rt, alloc, path, root, spot, inner) {
        Ok(found) => found.dev() == reached.device && found.ino() == reached.number,
        Err(_) => false,
    }
}

/// Goes to a directory. Where the path leads to the one that was reached last, no link can have come
/// in between that leads elsewhere, so the way isn't looked at again.
fn go_or_stay<R: Files>(
    rt: &R,
    alloc: Global,
    reached: &mut Option<Reached>,
    path: &str,
    root: &str,
    spot: &Spot,
    inner: &str,
) -> Result<(), DirError>
    requires { path.now ≡ inner_path root.now spot.now inner.now }
    ensures at { OnOk result (IsSomeAnd reached.new (λ reached. IsAt reached root.now spot.now inner.now)) }
    ensures refusals { IfErr result (λ e. (e ≡ DirError.Missing) ⊎ (is_fault e ≡ true)) }
{
    if let Some(last) = reached {
        if leads_back(rt, alloc, last, path, root, spot, inner) {
            return Ok(());
        }
    }
    *reached = Some(go(rt, alloc, path, root, spot, inner)?);
    Ok(())
}

/// The path of what stands behind a path in a folder, once the directory above it was reached.
/// `Missing` where that or one above it isn't there, and for a path with a segment `.` or `..`.
pub fn reach<R: Files>(
    rt: &R,
    alloc: Global,
    root: &str,
    reached: &mut Option<Reached>,
    spot: &Spot,
    inner: &str,
) -> Result<String, DirError>
    ensures path { IfOk result (λ path. string_bytes path ≡ inner_path root.now spot.now inner.now) }
    ensures dots { has_dots inner.now ≡ true → result ≡ Err DirError.Missing }
    ensures refusals { IfErr result (λ e. (e ≡ DirError.Missing) ⊎ (is_fault e ≡ true)) }
{
    if has_dots(inner) {
        return Err(DirError::Missing);
    }
    let (above, rest) = parted(inner);
    let mut path = path_inside(alloc, root, spot, above).map_err(short)?;
    go_or_stay(rt, alloc, reached, path.as_str(), root, spot, above)?;
    push_rest(&mut path, above, rest).map_err(short)?;
    Ok(path)
}

/// The same of something below the folder: the empty path, that of the folder itself, is refused so.
pub fn reach_below<R: Files>(
    rt: &R,
    alloc: Global,
    root: &str,
    reached: &mut Option<Reached>,
    spot: &Spot,
    inner: &str,
    folder: DirError,
) -> Result<String, DirError>
    ensures path { IfOk result (λ path. string_bytes path ≡ inner_path root.now spot.now inner.now) }
    ensures dots { has_dots inner.now ≡ true → result ≡ Err DirError.Missing }
    ensures below { OnOk result (inner.now ≢ []) }
    ensures refusals { IfErr result (λ e. (e ≡ folder) ⊎ (e ≡ DirError.Missing) ⊎ (is_fault e ≡ true)) }
{
    let path = reach(rt, alloc, root, reached, spot, inner)?;
    if inner.is_empty() {
        return Err(folder);
    }
    Ok(path)
}
