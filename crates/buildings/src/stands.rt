// What stands of a plan in a folder.
ghost use Rattle.std.specs.Prelude.{◌≡◌, true, IfSome};
ghost use Rattle.dir_model.specs.Paths.{is_path};
ghost use Rattle.dir_trait.specs.Local.{IsActive};

use crate::rows::{Row, RowKind, bytes_of};
use dir_files::items_of;
use dir_model::is_path;
use dir_trait::{Dir, DirError, Spot};
use scripts::Page;
use std::alloc::Global;

/// What stands where an entry of a plan belongs.
#[derive(Clone, Copy, PartialEq, Eq)]
enum Stand {
    Whole,
    /// A file with the first bytes of those.
    Begun,
    Absent,
    Other,
}

/// What stands of the entries so far, the first ones first.
#[derive(Clone, Copy)]
struct Tally {
    whole: usize,
    standing: usize,
    listed: usize,
    ended: bool,
    so: bool,
}

// The text, where it is a path.
fn path_of(text: &str) -> Option<&str>
    ensures { IfSome result (λ path. is_path path.now ≡ true) }
{
    if is_path(text.as_bytes()) {
        Some(text)
    } else {
        None
    }
}

fn compare(found: &[u8], wanted: &[u8]) -> Stand {
    if found == wanted {
        return Stand::Whole;
    }
    if wanted.starts_with(found) {
        return Stand::Begun;
    }
    Stand::Other
}

fn read<D: Dir>(
    alloc: Global,
    dir: &mut D,
    spot: Spot,
    path: &str,
    room: &mut [u8],
    wanted: &[u8],
) -> Stand
    requires active { IsActive (D.shown dir.old).local }
    requires path { is_path path.now ≡ true }
    ensures { (D.shown dir.new).local ≡ (D.shown dir.old).local }
{
    match dir.read_in(alloc, spot, path, 0, room) {
        Ok(count) => compare(&room[..count], wanted),
        Err(DirError::Missing) => Stand::Absent,
        Err(_) => Stand::Other,
    }
}

fn read_at<D: Dir>(
    alloc: Global,
    dir: &mut D,
    spot: Spot,
    row: &Row,
    room: Vec<u8>,
    wanted: &[u8],
) -> Stand
    requires { IsActive (D.shown dir.old).local }
    ensures { (D.shown dir.new).local ≡ (D.shown dir.old).local }
{
    let mut room = room;
    match path_of(row.path) {
        Some(path) => read(alloc, dir, spot, path, &mut room, wanted),
        None => Stand::Other,
    }
}

fn file_stand<D: Dir>(page: &mut Page, dir: &mut D, spot: Spot, row: &Row) -> Stand
    requires { IsActive (D.shown dir.old).local }
    ensures { (D.shown dir.new).local ≡ (D.shown dir.old).local }
{
    let wanted = bytes_of(page, row.text);
    let length = wanted.as_slice().len().saturating_add(1);
    match vec![in page.alloc(); 0; length] {
        Ok(room) => read_at(page.alloc(), dir, spot, row, room, wanted.as_slice()),
        Err(_) => {
            page.no_memory();
            Stand::Other
        }
    }
}

// How many items a listing of a directory shows, where it is one.
fn count_in<D: Dir>(alloc: Global, dir: &mut D, spot: Spot, text: &str) -> Option<usize>
    requires { IsActive (D.shown dir.old).local }
    ensures { (D.shown dir.new).local ≡ (D.shown dir.old).local }
{
    let path = path_of(text)?;
    match items_of(alloc, dir, spot, path) {
        Ok(items) => Some(items.as_slice().len()),
        Err(_) => None,
    }
}

fn add(tally: &mut Tally, stand: Stand, items: usize) {
    tally.so = tally.so && stand != Stand::Other && (stand == Stand::Absent || !tally.ended);
    tally.ended = tally.ended || stand != Stand::Whole;
    tally.listed = tally.listed.saturating_add(items);
    if stand == Stand::Whole {
        tally.whole = tally.whole.saturating_add(1);
    }
    if stand != Stand::Absent {
        tally.standing = tally.standing.saturating_add(1);
    }
}

fn look<D: Dir>(page: &mut Page, dir: &mut D, spot: Spot, row: &Row, tally: &mut Tally)
    requires { IsActive (D.shown dir.old).local }
    ensures { (D.shown dir.new).local ≡ (D.shown dir.old).local }
{
    if row.kind != RowKind::Directory {
        let stand = file_stand(page, dir, spot, row);
        return add(tally, stand, 0);
    }
    match count_in(page.alloc(), dir, spot, row.path) {
        Some(items) => add(tally, Stand::Whole, items),
        None => add(tally, Stand::Absent, 0),
    }
}

/// How many entries of the plan stand, where the first ones do, with at most the next begun, and nothing
/// else stands in the folder.
pub fn standing<D: Dir>(page: &mut Page, dir: &mut D, spot: Spot, rows: &[Row]) -> Option<usize>
    requires { IsActive (D.shown dir.old).local }
    ensures { (D.shown dir.new).local ≡ (D.shown dir.old).local }
{
    let spot = &spot;
    let Some(listed) = count_in(page.alloc(), dir, *spot, "") else {
        return None;
    };
    let mut tally = Tally {
        whole: 0,
        standing: 0,
        listed,
        ended: false,
        so: true,
    };
    'rows: for row in rows {
        look(page, dir, *spot, row, &mut tally);
    }
    let only = tally.listed == tally.standing;
    if tally.so && only {
        Some(tally.whole)
    } else {
        None
    }
}
