// What the system is asked of the files of a bundle. Nothing here counts faults: `Failed` is counted by
// the bundle that hands it on.
ghost use Rattle.std.specs.Prelude.{◌≡◌, ◌≢◌, ◌≤◌, ◌++◌, ◌↔◌, min, length, take, drop, string_bytes, IsOk, IfOk, IfErr, OnOk, IsTrue, IsSomeAnd};
ghost use Rattle.std.specs.Fs.{file_type, IsDir, IsFile, IsSymlink};
ghost use Rattle.std.specs.IoError.{error_kind};
ghost use Rattle.dir_trait.specs.Bundles.{IsBundleListing};
ghost use Rattle.host_files.specs.Refusals.{bundle_error};
ghost use Rattle.host_files.specs.Readings.{ReadsOpenedFile, StaysOpened};

use crate::links::{check_way, look};
use dir_trait::{BundleError, BundleItems, BundleKind, FileName, NoMemory, listing_of};
use std::alloc::{AllocError, Global};
use std::collections::BTreeMap;
use std::fs::{DirEntry, File, FileType, Metadata};
use std::io::ErrorKind;
use std::os::unix::fs::{FileExt, MetadataExt};
use std::rt::Files;
use std::{fs, io};

/// What a failure of the system means.
pub(crate) fn refusal(error: io::Error) -> BundleError
    ensures { result ≡ bundle_error (error_kind error) }
{
    match error.kind() {
        ErrorKind::NotFound | ErrorKind::NotADirectory | ErrorKind::IsADirectory => {
            BundleError::Missing
        }
        ErrorKind::OutOfMemory => BundleError::NoMemory,
        _ => BundleError::Failed,
    }
}

/// A file that was opened, and at which path.
#[derive(Drop)]
pub struct OpenedFile {
    path: String,
    file: File,
}

fn check_regular(metadata: &Metadata) -> Result<(), BundleError>
    ensures regular { IsOk result ↔ IsFile (file_type metadata.now) }
    ensures missing { IfErr result (λ e. e ≡ BundleError.Missing) }
{
    if metadata.is_file() {
        Ok(())
    } else {
        Err(BundleError::Missing)
    }
}

/// Whether the file that was opened is the one that was looked at.
fn check_same(found: &Metadata, opened: &Metadata) -> Result<(), BundleError>
    ensures { IfErr result (λ e. e ≡ BundleError.Missing) }
{
    if found.dev() == opened.dev() && found.ino() == opened.ino() {
        Ok(())
    } else {
        Err(BundleError::Missing)
    }
}

/// Opens a regular file. Looks first, since to open a pipe would wait for its other end, and looks at
/// what was opened, since another thing, as a link, may stand there by then.
fn open_file<R: Files<File = File>>(rt: &R, path: &str, named: &str) -> Result<File, BundleError> {
    let found = look(rt, path, named)?;
    check_regular(&found)?;
    let file = File::open(rt, path).map_err(refusal)?;
    let opened = file.metadata().map_err(refusal)?;
    check_same(&found, &opened)?;
    Ok(file)
}

/// The file in which a reading of the path goes on: the one that is opened, where it is that path's and
/// the reading isn't at its start, and else one that is opened anew.
fn file_of_reading<R: Files<File = File>>(
    rt: &R,
    alloc: Global,
    opened: Option<OpenedFile>,
    path: &str,
    named: &str,
    at: u64,
) -> Result<OpenedFile, BundleError>
    ensures kept { ReadsOpenedFile opened path.now at result }
    ensures path { IfOk result (λ opened. string_bytes opened.path ≡ path.now) }
{
    if let Some(opened) = opened {
        if at > 0 && opened.path.as_str() == path {
            return Ok(opened);
        }
    }
    let file = open_file(rt, path, named)?;
    match String::from_str(alloc, path) {
        Ok(path) => Ok(OpenedFile { path, file }),
        Err(_) => Err(BundleError::NoMemory),
    }
}

/// Reads a part of the file, and asks again where a signal came between. No file has a byte from 2^63
/// on.
fn read_part(file: &File, at: u64, room: &mut [u8]) -> io::Result<usize>
    ensures { IfOk result (λ n. n ≤ length room.old) }
{
    if at > i64::MAX as u64 {
        return Ok(0);
    }
    for _ in 0..u64::MAX {
        match file.read_at(room, at) {
            Ok(count) => return Ok(count),
            Err(error) if error.kind() == ErrorKind::Interrupted => {}
            Err(error) => return Err(error),
        }
    }
    Err(io::Error::from(ErrorKind::Interrupted))
}

/// Fills the room with the bytes of the file from a place on, and answers how many it filled: fewer
/// than the room has only where the system gave none more.
pub fn read_from(file: &File, at: u64, room: &mut [u8]) -> io::Result<usize>
    ensures { IfOk result (λ n. n ≤ length room.old) }
{
    let mut count = 0;
    'parts: while count < room.len() {
        match read_part(file, at.saturating_add(count as u64), &mut room[count..]) {
            Ok(0) => return Ok(count),
            Ok(more) => count += more,
            Err(error) => return Err(error),
        }
    }
    Ok(count)
}

/// Fills the room with the bytes of the file at a path from a place on, and answers how many it filled.
/// The file stays opened for the next piece. `Missing` where the path leads through a link behind the path
/// that was named.
pub fn read_file<R: Files<File = File>>(
    rt: &R,
    alloc: Global,
    opened: &mut Option<OpenedFile>,
    path: &str,
    named: &str,
    at: u64,
    room: &mut [u8],
) -> Result<usize, BundleError>
    ensures most { IfOk result (λ n. n ≤ length room.old) }
    ensures stays { StaysOpened opened.old path.now at opened.new }
    ensures opened { OnOk result (IsSomeAnd opened.new (λ file. string_bytes file.path ≡ path.now)) }
{
    match file_of_reading(rt, alloc, opened.take(), path, named, at) {
        Ok(file) => {
            let count = read_from(&file.file, at, room);
            *opened = Some(file);
            count.map_err(refusal)
        }
        Err(error) => Err(error),
    }
}

/// Writes the bytes over the front of the room, as far as they fit, and answers how many did.
pub fn fill(room: &mut [u8], bytes: &[u8]) -> usize
    ensures count { result ≡ min (length bytes.now) (length room.old) }
    ensures room { room.new ≡ take result bytes.now ++ drop result room.old }
{
    let count = bytes.len().min(room.len());
    room[..count].copy_from_slice(&bytes[..count]);
    count
}

/// Fills the room with the target of a symbolic link, and answers how many bytes it filled. `Missing`
/// where no link stands there, or the path leads through one behind the path that was named.
pub fn read_target<R: Files + AllocGlobal>(
    rt: &R,
    path: &str,
    named: &str,
    room: &mut [u8],
) -> Result<usize, BundleError>
    ensures { IfOk result (λ n. n ≤ length room.old) }
{
    check_way(rt, path, named)?;
    match fs::symlink_metadata(rt, path) {
        Ok(metadata) if metadata.is_symlink() => match fs::read_link(rt, path) {
            Ok(target) => Ok(fill(room, target.as_str().as_bytes())),
            Err(error) => Err(refusal(error)),
        },
        Ok(_) => Err(BundleError::Missing),
        Err(error) => Err(refusal(error)),
    }
}

fn short(_error: NoMemory) -> BundleError {
    BundleError::NoMemory
}

fn kind_of(kind: FileType) -> BundleKind
    ensures dir { (result ≡ BundleKind.Dir) ↔ IsDir kind }
    ensures file { (result ≡ BundleKind.File) ↔ IsFile kind }
    ensures link { (result ≡ BundleKind.Link) ↔ IsSymlink kind }
{
    if kind.is_dir() {
        BundleKind::Dir
    } else if kind.is_file() {
        BundleKind::File
    } else if kind.is_symlink() {
        BundleKind::Link
    } else {
        BundleKind::Other
    }
}

/// What the system told of the next entry. None where its name isn't UTF-8.
fn told_entry<E>(told: io::Result<E>) -> Result<Option<E>, BundleError>
    ensures found { IfOk told (λ entry. result ≡ Ok (Some entry)) }
    ensures unnamed { IfErr told (λ e. error_kind e ≡ ErrorKind.InvalidFilename → result ≡ Ok None) }
    ensures refused { IfErr told (λ e. error_kind e ≢ ErrorKind.InvalidFilename → result ≡ Err (bundle_error (error_kind e))) }
{
    match told {
        Ok(entry) => Ok(Some(entry)),
        Err(error) if error.kind() == ErrorKind::InvalidFilename => Ok(None),
        Err(error) => Err(refusal(error)),
    }
}

/// What the system told of an entry's kind. None where the entry has gone since.
fn told_kind(told: io::Result<FileType>) -> Result<Option<FileType>, BundleError>
    ensures found { IfOk told (λ kind. result ≡ Ok (Some kind)) }
    ensures gone { IfErr told (λ e. error_kind e ≡ ErrorKind.NotFound → result ≡ Ok None) }
    ensures refused { IfErr told (λ e. error_kind e ≢ ErrorKind.NotFound → result ≡ Err (bundle_error (error_kind e))) }
{
    match told {
        Ok(kind) => Ok(Some(kind)),
        Err(error) if error.kind() == ErrorKind::NotFound => Ok(None),
        Err(error) => Err(refusal(error)),
    }
}

/// Which names a listing shows.
#[derive(Clone, Copy, Debug, PartialEq, Eq)]
pub enum Shows {
    /// Each: the listing fails where one can't be told.
    Each,
    /// Those that can be told.
    Told,
    /// Those that can be told and have at most so many bytes.
    Short(usize),
}

// A path has at most 4,095 bytes, a directory's with a slash behind it.
const LONGEST: usize = 4095;

/// The names below a directory whose paths the system takes.
pub(crate) fn reachable(path_length: usize) -> Shows {
    Shows::Short(LONGEST.saturating_sub(2).saturating_sub(path_length))
}

/// What a name that can't be told means for a listing.
fn pass_over(shows: Shows) -> Result<(), BundleError>
    ensures each { shows ≡ Shows.Each → result ≡ Err BundleError.Failed }
    ensures others { shows ≢ Shows.Each → IsOk result }
{
    match shows {
        Shows::Each => Err(BundleError::Failed),
        Shows::Told | Shows::Short(_) => Ok(()),
    }
}

/// Whether the name has no more bytes than are shown.
fn is_shown(name: &FileName, shows: Shows) -> bool
    ensures { shows ≡ Shows.Each → IsTrue result }
{
    match shows {
        Shows::Each | Shows::Told => true,
        Shows::Short(most) => name.as_str().len() <= most,
    }
}

/// Adds an entry of a directory, unless it has gone since.
fn add<R: Files + Clone + Drop>(
    kinds: &mut BTreeMap<FileName, BundleKind>,
    entry: &DirEntry<R, Global>,
    shows: Shows,
) -> Result<(), BundleError> {
    let Some(name) = FileName::of(entry.file_name()) else {
        return pass_over(shows);
    };
    if !is_shown(&name, shows) {
        return Ok(());
    }
    let Some(kind) = told_kind(entry.file_type())? else {
        return Ok(());
    };
    match kinds.insert(name, kind_of(kind)) {
        Ok(_) => Ok(()),
        Err(_) => Err(BundleError::NoMemory),
    }
}

/// The entries of a directory, in byte order of their names, as far as it shows them.
pub fn list_folder<R: Files + AllocGlobal + Clone + Drop>(
    rt: &R,
    alloc: Global,
    path: &str,
    shows: Shows,
) -> Result<BundleItems, BundleError>
    ensures { IfOk result IsBundleListing }
{
    let mut kinds = BTreeMap::new(alloc);
    let entries = fs::read_dir(rt, path).map_err(refusal)?;
    for entry in entries {
        match told_entry(entry)? {
            Some(entry) => add(&mut kinds, &entry, shows)?,
            None => pass_over(shows)?,
        }
    }
    listing_of(alloc, &kinds).map_err(short)
}
