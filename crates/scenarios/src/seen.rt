// What stands in the data folder.
ghost use Rattle.std.specs.Prelude.{◌≡◌};
ghost use Rattle.dir_trait.specs.Local.{nothing_local};

use crate::run::{free_number, next};
use crate::stage::Stage;
use dir_memory::MemoryDir;
use dir_trait::{
    Dir, Event, Inner, Intent, Item, ItemKind, Kind, NoMemory, PodId, PodPrefix, Reply, Request,
    Spot,
};
use scripts::{Page, ShortNames, item_kind_text, print_bytes, print_reply};
use std::alloc::Global;

/// The first of the numbers of processes that only look.
pub const LOOKERS: u32 = 1_000_000;

fn intent() -> Intent {
    Intent {
        kind: Kind::Status,
        word: PodPrefix::empty(),
        now: 0,
        grace: 0,
        expire: 0,
        draw: PodId { bytes: [0; 16] },
        token: [0; 16],
    }
}

// The folder after another process began and asked that, and this one began.
fn asked(
    alloc: Global,
    dir: MemoryDir,
    process: u32,
    request: Request,
) -> Result<MemoryDir, NoMemory>
    requires { dir.local ≡ nothing_local }
{
    let dir = dir.schedule(alloc, 1, process, Request::Begin(intent()))?;
    let mut dir = dir.schedule(alloc, 1, process, request)?;
    let _begun = dir.begin(alloc, intent());
    Ok(dir)
}

// The last reply to that process. None where memory ran out.
fn last_reply(events: &[Event], process: u32) -> Option<Reply> {
    for event in events.iter().rev() {
        if event.process == process {
            return event.reply.copy().ok();
        }
    }
    Some(Reply::Done)
}

fn reply_to(alloc: Global, stage: &mut Stage, request: Request) -> Option<Reply> {
    let dir = stage.dir.take()?;
    let looker = free_number(&dir, LOOKERS);
    let Some(dir) = next(dir, looker) else {
        return None;
    };
    let process = looker.saturating_add(1);
    let dir = asked(alloc, dir, process, request).ok()?;
    let reply = last_reply(dir.history().as_slice(), process);
    stage.dir = Some(dir);
    reply
}

/// A process that only looks asks that, and what it is answered.
pub fn see(page: &mut Page, stage: &mut Stage, request: Request) -> Reply {
    if let Some(reply) = reply_to(page.alloc(), stage, request) {
        return reply;
    }
    page.no_memory();
    Reply::Done
}

fn inner(page: &mut Page, spot: Spot, path: &str) -> Inner {
    let path = page.bytes(path.as_bytes());
    Inner { spot, path }
}

fn joined(page: &mut Page, path: &str, name: &str) -> String {
    if path.is_empty() {
        return page.text(name);
    }
    match format!(in page.alloc(); "{path}/{name}") {
        Ok(text) => text,
        Err(_) => {
            page.no_memory();
            String::new(page.alloc())
        }
    }
}

fn print_file(page: &mut Page, stage: &mut Stage, spot: Spot, path: &str) {
    let request = Request::ReadIn {
        inner: inner(page, spot, path),
        at: 0,
        room: 1_000_000,
    };
    if let Reply::Read(bytes) = &see(page, stage, request)
        && !bytes.as_slice().is_empty()
    {
        page.put(" ");
        print_bytes(page, bytes.as_slice(), 600);
    }
}

fn print_item(page: &mut Page, stage: &mut Stage, spot: Spot, kind: ItemKind, path: &str) {
    page.put("  ");
    page.put(item_kind_text(kind));
    page.put(" ");
    page.put(path);
    if kind == ItemKind::File {
        print_file(page, stage, spot, path);
    }
    page.put("\n");
}

// What stands in a directory of a folder. The directories among it go to the end of the list.
fn print_items(
    page: &mut Page,
    stage: &mut Stage,
    spot: &Spot,
    path: &str,
    items: &[Item],
    paths: &mut Vec<String>,
) {
    for item in items {
        let path = joined(page, path, item.name.as_str());
        print_item(page, stage, *spot, item.kind, path.as_str());
        if item.kind == ItemKind::Dir {
            page.push(paths, path);
        }
    }
}

fn print_directory(
    page: &mut Page,
    names: &ShortNames,
    stage: &mut Stage,
    spot: &Spot,
    path: &str,
    paths: &mut Vec<String>,
) {
    let request = Request::ListIn(inner(page, *spot, path));
    let reply = see(page, stage, request);
    if let Reply::Items(items) = &reply {
        return print_items(page, stage, spot, path, items.as_slice(), paths);
    }
    page.put("  ");
    print_reply(page, names, &reply);
    page.put("\n");
}

/// Prints what stands in a folder, one line each: its kind, its path, and of a file its text; at most 200
/// directories.
pub fn print_tree(page: &mut Page, names: &ShortNames, stage: &mut Stage, spot: Spot) {
    let spot = &spot;
    let mut paths = Vec::new(page.alloc());
    let root = String::new(page.alloc());
    page.push(&mut paths, root);
    for place in 0..200 {
        let path = match paths.get(place) {
            Some(path) => page.text(path.as_str()),
            None => break,
        };
        print_directory(page, names, stage, spot, path.as_str(), &mut paths);
    }
}
