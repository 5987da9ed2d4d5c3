// What stands in folders: how it is made, written, read, synced and removed.
ghost use Rattle.std.specs.Prelude.{◌≡◌, ◌≢◌, ◌⊎◌, ◌↔◌, true, [], Err, IsOk, IfErr, OnOk};
ghost use Rattle.std.specs.Fs.{file_type, IsFile, new_options, with_read, with_append};
ghost use Rattle.std.specs.Io.KnownBytes.{Appends};
ghost use Rattle.dir_trait.specs.DirCalls.{KeepsUnreadRoom};
ghost use Rattle.dir_model.specs.Replies.{is_fault};
ghost use Rattle.host_files.specs.Places.{has_dots};

use crate::apps::may_be_apps;
use crate::asks::{
    make_dir_at, make_file_at, open_dir_at, open_file_at, remove_dir_at, remove_file_at,
};
use crate::files::{fill, read_from};
use crate::leftovers::remove_left;
use crate::looks::{Found, Reached, look, reach, reach_below};
use crate::place::has_dots;
use crate::refusals::{absent, fault, short, unmade, unremoved};
use dir_trait::{DirError, Spot};
use std::alloc::Global;
use std::fs::{File, Metadata, OpenOptions};
use std::io::Write;
use std::rt::Files;

/// Makes an empty directory.
pub fn make_dir<R: Files>(
    rt: &R,
    alloc: Global,
    root: &str,
    reached: &mut Option<Reached>,
    spot: &Spot,
    inner: &str,
) -> Result<(), DirError>
    ensures dots { has_dots inner.now ≡ true → result ≡ Err DirError.Missing }
    ensures below { OnOk result (inner.now ≢ []) }
    ensures refusals { IfErr result (λ e. (e ≡ DirError.Exists) ⊎ (e ≡ DirError.Missing) ⊎ (is_fault e ≡ true)) }
{
    let path = reach_below(rt, alloc, root, reached, spot, inner, DirError::Exists)?;
    make_dir_at(rt, path.as_str(), root, spot, inner).map_err(unmade)
}

/// Makes an empty file. It takes the place of nothing, and follows no link.
pub fn make_file<R: Files>(
    rt: &R,
    alloc: Global,
    root: &str,
    reached: &mut Option<Reached>,
    spot: &Spot,
    inner: &str,
) -> Result<(), DirError>
    ensures dots { has_dots inner.now ≡ true → result ≡ Err DirError.Missing }
    ensures below { OnOk result (inner.now ≢ []) }
    ensures refusals { IfErr result (λ e. (e ≡ DirError.Exists) ⊎ (e ≡ DirError.Missing) ⊎ (is_fault e ≡ true)) }
{
    let path = reach_below(rt, alloc, root, reached, spot, inner, DirError::Exists)?;
    match make_file_at(rt, path.as_str(), root, spot, inner) {
        Ok(_) => Ok(()),
        Err(error) => Err(unmade(error)),
    }
}

/// How a file is opened that is read, or locked.
pub fn for_reading() -> OpenOptions
    ensures { result ≡ with_read new_options true }
{
    let mut options = OpenOptions::new();
    options.read(true);
    options
}

/// How a file is opened that is written at its end.
fn for_appending() -> OpenOptions
    ensures { result ≡ with_append new_options true }
{
    let mut options = OpenOptions::new();
    options.append(true);
    options
}

fn check_regular(metadata: Metadata) -> Result<(), DirError>
    ensures regular { IsOk result ↔ IsFile (file_type metadata) }
    ensures missing { IfErr result (λ e. e ≡ DirError.Missing) }
{
    if metadata.is_file() {
        Ok(())
    } else {
        Err(DirError::Missing)
    }
}

/// Opens the regular file behind a path. Looks first, since to open a pipe would wait for its other
/// end, and looks at what was opened, since another thing may stand there by then.
pub fn open_regular<R: Files<File = File>>(
    rt: &R,
    alloc: Global,
    options: &OpenOptions,
    root: &str,
    reached: &mut Option<Reached>,
    spot: &Spot,
    inner: &str,
) -> Result<File, DirError>
    ensures dots { has_dots inner.now ≡ true → result ≡ Err DirError.Missing }
    ensures below { OnOk result (inner.now ≢ []) }
    ensures refusals { IfErr result (λ e. (e ≡ DirError.Missing) ⊎ (is_fault e ≡ true)) }
{
    let path = reach_below(rt, alloc, root, reached, spot, inner, DirError::Missing)?;
    if look(rt, alloc, root, spot, inner)? != Found::File {
        return Err(DirError::Missing);
    }
    let file = open_file_at(rt, options, path.as_str(), root, spot, inner).map_err(absent)?;
    let metadata = file.metadata().map_err(fault)?;
    check_regular(metadata)?;
    Ok(file)
}

/// Opens the directory behind a path.
pub fn open_dir<R: Files<File = File>>(
    rt: &R,
    alloc: Global,
    root: &str,
    reached: &mut Option<Reached>,
    spot: &Spot,
    inner: &str,
) -> Result<File, DirError>
    ensures dots { has_dots inner.now ≡ true → result ≡ Err DirError.Missing }
    ensures refusals { IfErr result (λ e. (e ≡ DirError.Missing) ⊎ (is_fault e ≡ true)) }
{
    let mut path = reach(rt, alloc, root, reached, spot, inner)?;
    if look(rt, alloc, root, spot, inner)? != Found::Dir {
        return Err(DirError::Missing);
    }
    path.push_str("/").map_err(short)?;
    open_dir_at(rt, path.as_str(), root, spot, inner).map_err(absent)
}

/// Writes the whole piece, by as many writes as it takes.
fn write_piece<W: Write>(file: &mut W, piece: &[u8]) -> Result<(), DirError>
    ensures bytes { OnOk result (Appends (W.contents file.old) (W.contents file.new) piece.now) }
    ensures refusals { IfErr result (λ e. is_fault e ≡ true) }
{
    file.write_all(piece).map_err(fault)
}

/// Adds bytes at the end of a file.
pub fn append<R: Files<File = File>>(
    rt: &R,
    alloc: Global,
    root: &str,
    reached: &mut Option<Reached>,
    spot: &Spot,
    inner: &str,
    piece: &[u8],
) -> Result<(), DirError>
    ensures dots { has_dots inner.now ≡ true → result ≡ Err DirError.Missing }
    ensures below { OnOk result (inner.now ≢ []) }
    ensures refusals { IfErr result (λ e. (e ≡ DirError.Missing) ⊎ (is_fault e ≡ true)) }
{
    let mut file = open_regular(rt, alloc, &for_appending(), root, reached, spot, inner)?;
    write_piece(&mut file, piece)
}

/// Fills the room with the bytes of an open file from a place on. A read that fails midway leaves the
/// room as it was, so the bytes come into a room of their own first.
fn read_opened(alloc: Global, file: &File, at: u64, room: &mut [u8]) -> Result<usize, DirError>
    ensures filled { KeepsUnreadRoom room.old result room.new }
    ensures refusals { IfErr result (λ e. is_fault e ≡ true) }
{
    let mut bytes = Vec::from_elem(alloc, 0, room.len()).map_err(short)?;
    match read_from(file, at, bytes.as_mut_slice()) {
        Ok(count) => Ok(fill(room, &bytes[..count])),
        Err(error) => Err(fault(error)),
    }
}

/// Fills the room with the bytes of a file from a place on, and answers how many it filled.
pub fn read<R: Files<File = File>>(
    rt: &R,
    alloc: Global,
    root: &str,
    reached: &mut Option<Reached>,
    spot: &Spot,
    inner: &str,
    at: u64,
    room: &mut [u8],
) -> Result<usize, DirError>
    ensures dots { has_dots inner.now ≡ true → result ≡ Err DirError.Missing }
    ensures below { OnOk result (inner.now ≢ []) }
    ensures filled { KeepsUnreadRoom room.old result room.new }
    ensures refusals { IfErr result (λ e. (e ≡ DirError.Missing) ⊎ (is_fault e ≡ true)) }
{
    match open_regular(rt, alloc, &for_reading(), root, reached, spot, inner) {
        Ok(file) => read_opened(alloc, &file, at, room),
        Err(error) => Err(error),
    }
}

/// Opens what stands behind a path, a directory or a regular file.
fn open_either<R: Files<File = File>>(
    rt: &R,
    alloc: Global,
    root: &str,
    reached: &mut Option<Reached>,
    spot: &Spot,
    inner: &str,
) -> Result<File, DirError>
    ensures dots { has_dots inner.now ≡ true → result ≡ Err DirError.Missing }
    ensures refusals { IfErr result (λ e. (e ≡ DirError.Missing) ⊎ (is_fault e ≡ true)) }
{
    match open_dir(rt, alloc, root, reached, spot, inner) {
        Err(DirError::Missing) => open_regular(
            rt,
            alloc,
            &for_reading(),
            root,
            reached,
            spot,
            inner,
        ),
        opened => opened,
    }
}

/// Brings a file, or the names in a directory, to the disk.
pub fn sync<R: Files<File = File>>(
    rt: &R,
    alloc: Global,
    root: &str,
    reached: &mut Option<Reached>,
    spot: &Spot,
    inner: &str,
) -> Result<(), DirError>
    ensures dots { has_dots inner.now ≡ true → result ≡ Err DirError.Missing }
    ensures refusals { IfErr result (λ e. (e ≡ DirError.Missing) ⊎ (is_fault e ≡ true)) }
{
    let opened = open_either(rt, alloc, root, reached, spot, inner)?;
    opened.sync_all().map_err(fault)
}

/// Removes a file, or what is neither file nor directory.
pub fn remove_file<R: Files>(
    rt: &R,
    alloc: Global,
    root: &str,
    reached: &mut Option<Reached>,
    spot: &Spot,
    inner: &str,
) -> Result<(), DirError>
    ensures dots { has_dots inner.now ≡ true → result ≡ Err DirError.Missing }
    ensures below { OnOk result (inner.now ≢ []) }
    ensures refusals { IfErr result (λ e. (e ≡ DirError.Missing) ⊎ (is_fault e ≡ true)) }
{
    let path = reach_below(rt, alloc, root, reached, spot, inner, DirError::Missing)?;
    remove_file_at(rt, path.as_str(), root, spot, inner).map_err(absent)
}

/// Removes an empty directory.
fn remove_bare<R: Files>(
    rt: &R,
    alloc: Global,
    root: &str,
    reached: &mut Option<Reached>,
    spot: &Spot,
    inner: &str,
) -> Result<(), DirError>
    ensures dots { has_dots inner.now ≡ true → result ≡ Err DirError.Missing }
    ensures below { OnOk result (inner.now ≢ []) }
    ensures refusals { IfErr result (λ e. (e ≡ DirError.Missing) ⊎ (e ≡ DirError.NotEmpty) ⊎ (is_fault e ≡ true)) }
{
    let path = reach_below(rt, alloc, root, reached, spot, inner, DirError::Missing)?;
    remove_dir_at(rt, path.as_str(), root, spot, inner).map_err(unremoved)
}

/// Removes an empty directory; and at or below the root of an app that may have been started, a directory
/// with all that the app left there.
pub fn remove_dir<R: Files<File = File> + AllocGlobal + Clone + Drop>(
    rt: &R,
    alloc: Global,
    root: &str,
    reached: &mut Option<Reached>,
    spot: &Spot,
    inner: &str,
) -> Result<(), DirError>
    ensures dots { has_dots inner.now ≡ true → result ≡ Err DirError.Missing }
    ensures below { OnOk result (inner.now ≢ []) }
    ensures refusals { IfErr result (λ e. (e ≡ DirError.Missing) ⊎ (e ≡ DirError.NotEmpty) ⊎ (is_fault e ≡ true)) }
{
    if has_dots(inner) || inner.is_empty() {
        return remove_bare(rt, alloc, root, reached, spot, inner);
    }
    if may_be_apps(alloc, spot, inner)? {
        remove_left(rt, alloc, root, spot, inner)
    } else {
        remove_bare(rt, alloc, root, reached, spot, inner)
    }
}
