// What is asked of the directory, in words.
use crate::line::Line;
use crate::names::ShortNames;
use crate::page::Page;
use crate::refusal::Unread;
use crate::texts::{print_bytes, unfolded};
use crate::words::{
    area_of, area_text, kind_of, kind_text, mode_of, mode_text, pod_of, spot_of, which_of,
    which_text,
};
use dir_model::{
    Area, Bytes, Handle, Inner, Intent, Kind, Mode, PodId, PodPrefix, Request, Spot, Which,
};

// At the moment 5, with no time to wait and a draw of its own.
fn plain_intent(kind: Kind) -> Intent {
    Intent {
        kind,
        word: PodPrefix::empty(),
        now: 5,
        grace: 0,
        expire: 0,
        draw: PodId { bytes: [1; 16] },
        token: [1; 16],
    }
}

fn word_of(page: &mut Page, word: &str) -> PodPrefix {
    if let Some(prefix) = PodPrefix::parse(word) {
        return prefix;
    }
    page.unread(Unread::Name);
    PodPrefix::empty()
}

// One more thing that is said of the process's intent.
fn note(page: &mut Page, names: &ShortNames, intent: &mut Intent, key: &str, line: &mut Line) {
    match key {
        "word" => intent.word = word_of(page, names.long(line.word())),
        "now" => intent.now = line.number(page),
        "grace" => intent.grace = line.number(page),
        "expire" => intent.expire = line.number(page),
        "draw" => intent.draw = pod_of(page, names.long(line.word())),
        "token" => {
            let token = pod_of(page, names.long(line.word())).bytes;
            intent.token = token;
        }
        _ => page.unread(Unread::Word),
    }
}

fn intent_of(page: &mut Page, names: &ShortNames, line: &mut Line) -> Intent {
    let mut intent = plain_intent(kind_of(page, line.word()));
    for _ in 0..6 {
        let key = line.word();
        if key.is_empty() {
            break;
        }
        note(page, names, &mut intent, key, line);
    }
    intent
}

fn spot(page: &mut Page, names: &ShortNames, line: &mut Line) -> Spot {
    let area = line.word();
    spot_of(page, area, names.long(line.word()))
}

fn handle(page: &mut Page, line: &mut Line) -> Handle {
    let number = line.short_number(page);
    Handle { number }
}

// The path is `.` for the folder itself.
fn inner(page: &mut Page, names: &ShortNames, line: &mut Line) -> Inner {
    let spot = spot(page, names, line);
    let path = unfolded(page, names.long(line.word()));
    let path = match path.as_str() {
        "." => page.bytes(&[]),
        path => page.bytes(path.as_bytes()),
    };
    Inner { spot, path }
}

fn moved(page: &mut Page, names: &ShortNames, line: &mut Line) -> Request {
    let from = spot(page, names, line);
    let area = line.word();
    let to = match line.word() {
        "" => spot_of(page, area, from.name.as_str()),
        name => spot_of(page, area, names.long(name)),
    };
    Request::MoveFolder { from, to }
}

fn opened(page: &mut Page, names: &ShortNames, line: &mut Line) -> Request {
    let spot = spot(page, names, line);
    let which = which_of(page, line.word());
    Request::Open { spot, which }
}

fn locked(page: &mut Page, line: &mut Line) -> Request {
    let handle = handle(page, line);
    let mode = mode_of(page, line.word());
    Request::TryLock { handle, mode }
}

fn appended(page: &mut Page, names: &ShortNames, line: &mut Line) -> Request {
    let inner = inner(page, names, line);
    let text = unfolded(page, names.long(line.rest()));
    let piece = page.bytes(text.as_bytes());
    Request::AppendIn { inner, piece }
}

fn read(page: &mut Page, names: &ShortNames, line: &mut Line) -> Request {
    let inner = inner(page, names, line);
    let at = line.number(page);
    let room = line.number(page);
    Request::ReadIn { inner, at, room }
}

fn request_in(page: &mut Page, names: &ShortNames, verb: &str, line: &mut Line) -> Request {
    match verb {
        "list-in" => Request::ListIn(inner(page, names, line)),
        "make-dir" => Request::MakeDirIn(inner(page, names, line)),
        "make-file" => Request::MakeFileIn(inner(page, names, line)),
        "append" => appended(page, names, line),
        "read" => read(page, names, line),
        "sync" => Request::SyncIn(inner(page, names, line)),
        "remove-file" => Request::RemoveFileIn(inner(page, names, line)),
        "remove-dir" => Request::RemoveDirIn(inner(page, names, line)),
        _ => {
            page.unread(Unread::Word);
            Request::Finish
        }
    }
}

/// The request that the words of the line name:
/// `begin COMMAND [word W] [now N] [grace N] [expire N] [draw POD] [token POD]`, `finish`, `kill`,
/// `make AREA NAME`, `move AREA NAME AREA [NAME]`, `remove AREA NAME`, `open AREA NAME own|claim`,
/// `open-area AREA`, `lock HANDLE shared|exclusive`, `close HANDLE`, `list AREA`, `sync-area AREA`,
/// `list-in`, `make-dir`, `make-file`, `sync`, `remove-file` and `remove-dir AREA NAME PATH`,
/// `append AREA NAME PATH TEXT`, `read AREA NAME PATH AT ROOM`. The path `.` is the folder itself.
/// Refused where the words name none.
pub fn request_of(page: &mut Page, names: &ShortNames, line: &mut Line) -> Request {
    let verb = line.word();
    match verb {
        "begin" => Request::Begin(intent_of(page, names, line)),
        "finish" => Request::Finish,
        "kill" => Request::Kill,
        "make" => Request::MakeFolder(spot(page, names, line)),
        "move" => moved(page, names, line),
        "remove" => Request::RemoveFolder(spot(page, names, line)),
        "open" => opened(page, names, line),
        "open-area" => Request::OpenArea(area_of(page, line.word())),
        "lock" => locked(page, line),
        "close" => Request::Close(handle(page, line)),
        "list" => Request::ListArea(area_of(page, line.word())),
        "sync-area" => Request::SyncArea(area_of(page, line.word())),
        _ => request_in(page, names, verb, line),
    }
}

fn print_area(page: &mut Page, verb: &str, area: Area) {
    page.put(verb);
    page.put(" ");
    page.put(area_text(area));
}

fn print_spot(page: &mut Page, names: &ShortNames, verb: &str, spot: &Spot) {
    print_area(page, verb, spot.area);
    page.put(" ");
    names.print(page, spot.name.as_str());
}

fn print_inner(page: &mut Page, names: &ShortNames, verb: &str, inner: &Inner) {
    print_spot(page, names, verb, &inner.spot);
    page.put(" ");
    match inner.path.as_slice() {
        [] => page.put("."),
        path => print_bytes(page, path, 100),
    }
}

fn print_move(page: &mut Page, names: &ShortNames, from: &Spot, to: &Spot) {
    print_spot(page, names, "move", from);
    print_area(page, "", to.area);
    if from.name != to.name {
        page.put(" ");
        names.print(page, to.name.as_str());
    }
}

fn print_append(page: &mut Page, names: &ShortNames, inner: &Inner, piece: &Bytes) {
    print_inner(page, names, "append", inner);
    page.put(" ");
    print_bytes(page, piece.as_slice(), 100);
}

fn print_read(page: &mut Page, names: &ShortNames, inner: &Inner, at: u64, room: u64) {
    print_inner(page, names, "read", inner);
    page.put(" ");
    page.tell(&at);
    page.put(" ");
    page.tell(&room);
}

fn print_open(page: &mut Page, names: &ShortNames, spot: &Spot, which: Which) {
    print_spot(page, names, "open", spot);
    page.put(" ");
    page.put(which_text(which));
}

fn print_lock(page: &mut Page, handle: Handle, mode: Mode) {
    page.put("lock ");
    page.tell(&handle.number);
    page.put(" ");
    page.put(mode_text(mode));
}

fn print_begin(page: &mut Page, kind: Kind) {
    page.put("begin ");
    page.put(kind_text(kind));
}

fn print_close(page: &mut Page, handle: Handle) {
    page.put("close ");
    page.tell(&handle.number);
}

fn print_request_in(page: &mut Page, names: &ShortNames, request: &Request) {
    match request {
        Request::ListIn(inner) => print_inner(page, names, "list-in", inner),
        Request::MakeDirIn(inner) => print_inner(page, names, "make-dir", inner),
        Request::MakeFileIn(inner) => print_inner(page, names, "make-file", inner),
        Request::AppendIn { inner, piece } => print_append(page, names, inner, piece),
        Request::ReadIn { inner, at, room } => print_read(page, names, inner, *at, *room),
        Request::SyncIn(inner) => print_inner(page, names, "sync", inner),
        Request::RemoveFileIn(inner) => print_inner(page, names, "remove-file", inner),
        Request::RemoveDirIn(inner) => print_inner(page, names, "remove-dir", inner),
        Request::Finish => page.put("finish"),
        _ => page.put("kill"),
    }
}

/// Prints the words of a request, of a begin only what the process is for.
pub fn print_request(page: &mut Page, names: &ShortNames, request: &Request) {
    match request {
        Request::Begin(intent) => print_begin(page, intent.kind),
        Request::MakeFolder(spot) => print_spot(page, names, "make", spot),
        Request::MoveFolder { from, to } => print_move(page, names, from, to),
        Request::RemoveFolder(spot) => print_spot(page, names, "remove", spot),
        Request::Open { spot, which } => print_open(page, names, spot, *which),
        Request::OpenArea(area) => print_area(page, "open-area", *area),
        Request::TryLock { handle, mode } => print_lock(page, *handle, *mode),
        Request::Close(handle) => print_close(page, *handle),
        Request::ListArea(area) => print_area(page, "list", *area),
        Request::SyncArea(area) => print_area(page, "sync-area", *area),
        _ => print_request_in(page, names, request),
    }
}
