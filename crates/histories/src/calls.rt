// Calls of a process that has begun, in words.
ghost use Rattle.std.specs.Prelude.{◌≡◌, true, IfSome};
ghost use Rattle.dir_model.specs.Paths.{is_path};
ghost use Rattle.dir_trait.specs.Local.{IsActive};
ghost use Rattle.folder_removal.specs.Removal.{is_removal_area};

use crate::steps::whole_request;
use dir_files::{ReadError, items_of, names_of, read_file};
use dir_model::is_path;
use dir_trait::{
    Area, Bytes, Dir, DirError, Inner, Items, Mode, Names, Reply, Request, Spot, Which,
};
use folder_removal::{DeleteError, delete_folder};
use scripts::{Line, Page, ShortNames, Unread, area_of, mode_of, print_reply, spot_of, which_of};
use std::alloc::Global;
use std::str;

fn refused(error: DirError) -> Reply {
    Reply::Refused { error, left: 0 }
}

fn done(answer: Result<(), DirError>) -> Reply {
    match answer {
        Ok(()) => Reply::Done,
        Err(error) => refused(error),
    }
}

fn named(answer: Result<Names, DirError>) -> Reply {
    match answer {
        Ok(names) => Reply::Names(names),
        Err(error) => refused(error),
    }
}

fn itemized(answer: Result<Items, DirError>) -> Reply {
    match answer {
        Ok(items) => Reply::Items(items),
        Err(error) => refused(error),
    }
}

// A call that has no path. None where there is no such call.
fn plain_call<D: Dir>(alloc: Global, dir: &mut D, request: &Request) -> Option<Reply>
    requires { IsActive (D.shown dir.old).local }
    ensures { IsActive (D.shown dir.new).local }
{
    match request {
        Request::MakeFolder(spot) => Some(done(dir.make_folder(alloc, *spot))),
        Request::MoveFolder { from, to } => Some(done(dir.move_folder(alloc, *from, *to))),
        Request::RemoveFolder(spot) => Some(done(dir.remove_folder(alloc, *spot))),
        Request::ListArea(area) => Some(named(names_of(alloc, dir, *area))),
        Request::SyncArea(area) => Some(done(dir.sync_area(alloc, *area))),
        _ => None,
    }
}

fn inner_of(request: &Request) -> Option<&Inner> {
    match request {
        Request::ListIn(inner)
        | Request::MakeDirIn(inner)
        | Request::MakeFileIn(inner)
        | Request::SyncIn(inner)
        | Request::RemoveFileIn(inner)
        | Request::RemoveDirIn(inner) => Some(inner),
        Request::AppendIn { inner, .. } | Request::ReadIn { inner, .. } => Some(inner),
        _ => None,
    }
}

fn path_of(bytes: &[u8]) -> Option<&str>
    ensures { IfSome result (λ path. is_path path.now ≡ true) }
{
    match str::from_utf8(bytes) {
        Ok(text) if is_path(text.as_bytes()) => Some(text),
        _ => None,
    }
}

// What isn't done, since the line can't be read.
fn unread(page: &mut Page, what: Unread) -> Reply {
    page.unread(what);
    Reply::Done
}

fn read_into<D: Dir>(
    alloc: Global,
    dir: &mut D,
    spot: Spot,
    path: &str,
    at: u64,
    room: Vec<u8>,
) -> Reply
    requires active { IsActive (D.shown dir.old).local }
    requires path { is_path path.now ≡ true }
    ensures { IsActive (D.shown dir.new).local }
{
    let mut bytes = room;
    match dir.read_in(alloc, spot, path, at, &mut bytes) {
        Ok(count) => {
            bytes.truncate(count);
            Reply::Read(Bytes::from_vec(bytes))
        }
        Err(error) => refused(error),
    }
}

fn read<D: Dir>(page: &mut Page, dir: &mut D, spot: Spot, path: &str, at: u64, room: u64) -> Reply
    requires active { IsActive (D.shown dir.old).local }
    requires path { is_path path.now ≡ true }
    ensures { IsActive (D.shown dir.new).local }
{
    match vec![in page.alloc(); 0; room.min(1000) as usize] {
        Ok(room) => read_into(page.alloc(), dir, spot, path, at, room),
        Err(_) => {
            page.no_memory();
            Reply::Done
        }
    }
}

// A call that has a path. A listing and a look at bytes are told, all else is only done.
fn call_at<D: Dir>(page: &mut Page, dir: &mut D, request: &Request, spot: Spot, path: &str) -> Reply
    requires active { IsActive (D.shown dir.old).local }
    requires path { is_path path.now ≡ true }
    ensures { IsActive (D.shown dir.new).local }
{
    let alloc = page.alloc();
    match request {
        Request::ListIn(_) => itemized(items_of(alloc, dir, spot, path)),
        Request::MakeDirIn(_) => done(dir.make_dir_in(alloc, spot, path)),
        Request::MakeFileIn(_) => done(dir.make_file_in(alloc, spot, path)),
        Request::AppendIn { piece, .. } => {
            done(dir.append_in(alloc, spot, path, piece.as_slice()))
        }
        Request::ReadIn { at, room, .. } => read(page, dir, spot, path, *at, *room),
        Request::SyncIn(_) => done(dir.sync_in(alloc, spot, path)),
        Request::RemoveFileIn(_) => done(dir.remove_file_in(alloc, spot, path)),
        _ => done(dir.remove_dir_in(alloc, spot, path)),
    }
}

fn inner_call<D: Dir>(page: &mut Page, dir: &mut D, request: &Request) -> Reply
    requires { IsActive (D.shown dir.old).local }
    ensures { IsActive (D.shown dir.new).local }
{
    let Some(inner) = inner_of(request) else {
        return unread(page, Unread::Line);
    };
    match path_of(inner.path.as_slice()) {
        Some(path) => call_at(page, dir, request, inner.spot, path),
        None => unread(page, Unread::Text),
    }
}

fn call<D: Dir>(page: &mut Page, dir: &mut D, request: &Request) -> Reply
    requires { IsActive (D.shown dir.old).local }
    ensures { IsActive (D.shown dir.new).local }
{
    match plain_call(page.alloc(), dir, request) {
        Some(reply) => reply,
        None => inner_call(page, dir, request),
    }
}

// Opens a lock and closes it again.
fn look<D: Dir>(alloc: Global, dir: &mut D, spot: Spot, which: Which) -> Reply
    requires { IsActive (D.shown dir.old).local }
    ensures { IsActive (D.shown dir.new).local }
{
    match dir.open(alloc, spot, which) {
        Ok(handle) => {
            dir.close(handle);
            Reply::Done
        }
        Err(error) => refused(error),
    }
}

// Opens a lock and asks for it. The handle stays open.
fn hold<D: Dir>(alloc: Global, dir: &mut D, spot: Spot, which: Which, mode: Mode) -> Reply
    requires { IsActive (D.shown dir.old).local }
    ensures { IsActive (D.shown dir.new).local }
{
    let spot = &spot;
    match dir.open(alloc, *spot, which) {
        Ok(handle) => done(dir.try_lock(alloc, handle, mode)),
        Err(error) => refused(error),
    }
}

// The same for the lock of an area.
fn hold_area<D: Dir>(alloc: Global, dir: &mut D, area: Area, mode: Mode) -> Reply
    requires { IsActive (D.shown dir.old).local }
    ensures { IsActive (D.shown dir.new).local }
{
    match dir.open_area(alloc, area) {
        Ok(handle) => done(dir.try_lock(alloc, handle, mode)),
        Err(error) => refused(error),
    }
}

fn is_removal(area: Area) -> bool
    ensures { result ≡ is_removal_area area }
{
    matches!(area, Area::ExitedGarbage | Area::Garbage | Area::Removed)
}

/// What a call is answered, or that a deletion met what nobody should have left there.
#[derive(Drop)]
pub enum Answer {
    Replied(Reply),
    Stray,
}

// Deletes a folder with all that stands in it. None where such a folder isn't deleted.
fn delete<D: Dir>(alloc: Global, dir: &mut D, spot: Spot) -> Option<Answer>
    requires { IsActive (D.shown dir.old).local }
    ensures { IsActive (D.shown dir.new).local }
{
    let spot = &spot;
    if !is_removal(spot.area) {
        return None;
    }
    match delete_folder(alloc, dir, *spot) {
        Ok(()) => Some(Answer::Replied(Reply::Done)),
        Err(DeleteError::DirFault) => Some(Answer::Replied(refused(DirError::Failed))),
        Err(DeleteError::Stray) => Some(Answer::Stray),
        Err(DeleteError::NoMemory) => Some(Answer::Replied(refused(DirError::NoMemory))),
    }
}

// Reads a file from its start, at most so many bytes of it.
fn read_front<D: Dir>(page: &mut Page, dir: &mut D, spot: Spot, path: &str, most: usize) -> Reply
    requires active { IsActive (D.shown dir.old).local }
    requires path { is_path path.now ≡ true }
    ensures { IsActive (D.shown dir.new).local }
{
    if most == 0 {
        return unread(page, Unread::Number);
    }
    match read_file(page.alloc(), dir, spot, path, most) {
        Ok(Some(bytes)) => Reply::Read(Bytes::from_vec(bytes)),
        Ok(None) => refused(DirError::Missing),
        Err(ReadError::DirFault) => refused(DirError::Failed),
        Err(ReadError::NoMemory) => refused(DirError::NoMemory),
    }
}

fn spot(page: &mut Page, names: &ShortNames, line: &mut Line) -> Spot {
    let area = line.word();
    spot_of(page, area, names.long(line.word()))
}

fn look_line<D: Dir>(page: &mut Page, names: &ShortNames, dir: &mut D, line: &mut Line) -> Reply
    requires { IsActive (D.shown dir.old).local }
    ensures { IsActive (D.shown dir.new).local }
{
    let spot = spot(page, names, line);
    let which = which_of(page, line.word());
    line.end(page);
    look(page.alloc(), dir, spot, which)
}

fn hold_line<D: Dir>(page: &mut Page, names: &ShortNames, dir: &mut D, line: &mut Line) -> Reply
    requires { IsActive (D.shown dir.old).local }
    ensures { IsActive (D.shown dir.new).local }
{
    let spot = spot(page, names, line);
    let which = which_of(page, line.word());
    let mode = mode_of(page, line.word());
    line.end(page);
    hold(page.alloc(), dir, spot, which, mode)
}

fn hold_area_line<D: Dir>(page: &mut Page, dir: &mut D, line: &mut Line) -> Reply
    requires { IsActive (D.shown dir.old).local }
    ensures { IsActive (D.shown dir.new).local }
{
    let area = area_of(page, line.word());
    let mode = mode_of(page, line.word());
    line.end(page);
    hold_area(page.alloc(), dir, area, mode)
}

fn front_line<D: Dir>(page: &mut Page, names: &ShortNames, dir: &mut D, line: &mut Line) -> Reply
    requires { IsActive (D.shown dir.old).local }
    ensures { IsActive (D.shown dir.new).local }
{
    let spot = spot(page, names, line);
    let path = names.long(line.word());
    let most = line.short_number(page);
    line.end(page);
    match path_of(path.as_bytes()) {
        Some(path) => read_front(page, dir, spot, path, most as usize),
        None => unread(page, Unread::Text),
    }
}

fn delete_line<D: Dir>(page: &mut Page, names: &ShortNames, dir: &mut D, line: &mut Line) -> Answer
    requires { IsActive (D.shown dir.old).local }
    ensures { IsActive (D.shown dir.new).local }
{
    let spot = spot(page, names, line);
    line.end(page);
    match delete(page.alloc(), dir, spot) {
        Some(answer) => answer,
        None => Answer::Replied(unread(page, Unread::Word)),
    }
}

fn request_line<D: Dir>(page: &mut Page, names: &ShortNames, dir: &mut D, text: &str) -> Reply
    requires { IsActive (D.shown dir.old).local }
    ensures { IsActive (D.shown dir.new).local }
{
    let request = whole_request(page, names, text);
    call(page, dir, &request)
}

/// What a call is answered: one of the requests on folders, areas and paths, or
/// `look AREA NAME own|claim`, `hold AREA NAME own|claim shared|exclusive`, `hold-area AREA MODE`,
/// `read-file AREA NAME PATH MOST` or `delete AREA NAME`.
pub fn answer_to<D: Dir>(page: &mut Page, names: &ShortNames, dir: &mut D, text: &str) -> Answer
    requires { IsActive (D.shown dir.old).local }
    ensures { IsActive (D.shown dir.new).local }
{
    let mut line = Line::of(text);
    match line.word() {
        "look" => Answer::Replied(look_line(page, names, dir, &mut line)),
        "hold" => Answer::Replied(hold_line(page, names, dir, &mut line)),
        "hold-area" => Answer::Replied(hold_area_line(page, dir, &mut line)),
        "read-file" => Answer::Replied(front_line(page, names, dir, &mut line)),
        "delete" => delete_line(page, names, dir, &mut line),
        _ => Answer::Replied(request_line(page, names, dir, text)),
    }
}

/// Prints an answer on a line of its own.
pub fn print_answer(page: &mut Page, names: &ShortNames, answer: &Answer) {
    page.put("  ");
    match answer {
        Answer::Replied(reply) => print_reply(page, names, reply),
        Answer::Stray => page.put("stray"),
    }
    page.put("\n");
}
