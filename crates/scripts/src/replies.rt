// What is answered, in words.
use crate::line::Line;
use crate::names::ShortNames;
use crate::page::Page;
use crate::refusal::Unread;
use crate::texts::{print_bytes, unfolded};
use crate::words::{error_of, error_text, item_kind_of, item_kind_text, name_of};
use dir_model::{DirError, FileName, Handle, Item, Items, Names, Reply};

fn names_of(page: &mut Page, short: &ShortNames, line: &mut Line) -> Reply {
    let mut names = Vec::new(page.alloc());
    for word in line.rest().split(' ') {
        if !word.is_empty() {
            let name = name_of(page, short.long(word));
            page.push(&mut names, name);
        }
    }
    Reply::Names(Names::from_vec(names))
}

fn add_item(page: &mut Page, items: &mut Vec<Item>, word: &str) {
    let Some((kind, name)) = word.split_once(':') else {
        return page.unread(Unread::Missing);
    };
    let kind = item_kind_of(page, kind);
    match FileName::of(name) {
        Some(name) => page.push(items, Item { name, kind }),
        None => page.unread(Unread::Name),
    }
}

fn items_of(page: &mut Page, line: &mut Line) -> Reply {
    let mut items = Vec::new(page.alloc());
    for word in line.rest().split(' ') {
        if !word.is_empty() {
            add_item(page, &mut items, word);
        }
    }
    Reply::Items(Items::from_vec(items))
}

fn read(page: &mut Page, names: &ShortNames, line: &mut Line) -> Reply {
    let text = unfolded(page, names.long(line.rest()));
    Reply::Read(page.bytes(text.as_bytes()))
}

fn opened(page: &mut Page, line: &mut Line) -> Reply {
    let number = line.short_number(page);
    Reply::Opened(Handle { number })
}

// How many bytes were left: none where it isn't said.
fn left_of(page: &mut Page, line: &mut Line) -> u64 {
    match line.word() {
        "left" => return line.number(page),
        "" => (),
        _ => page.unread(Unread::Word),
    }
    0
}

fn refused(page: &mut Page, verb: &str, line: &mut Line) -> Reply {
    let error = error_of(page, verb);
    let left = left_of(page, line);
    Reply::Refused { error, left }
}

/// The reply that the words of the line name: `done`, `begun`, `opened HANDLE`, `names NAME..`,
/// `items KIND:NAME..` with the kinds `dir`, `file` and `other`, `read TEXT`, or why it was refused:
/// `missing`, `exists`, `not-empty`, `locked`, `failed` or `no-memory`, maybe with `left N`. Refused where
/// the words name none.
pub fn reply_of(page: &mut Page, names: &ShortNames, line: &mut Line) -> Reply {
    let verb = line.word();
    match verb {
        "done" => Reply::Done,
        "begun" => Reply::Begun,
        "opened" => opened(page, line),
        "names" => names_of(page, names, line),
        "items" => items_of(page, line),
        "read" => read(page, names, line),
        _ => refused(page, verb, line),
    }
}

fn print_names(page: &mut Page, short: &ShortNames, names: &Names) {
    page.put("names");
    for name in names.as_slice() {
        page.put(" ");
        short.print(page, name.as_str());
    }
}

fn print_items(page: &mut Page, items: &Items) {
    page.put("items");
    for item in items.as_slice() {
        page.put(" ");
        page.put(item_kind_text(item.kind));
        page.put(":");
        page.put(item.name.as_str());
    }
}

fn print_opened(page: &mut Page, handle: &Handle) {
    page.put("opened ");
    page.tell(&handle.number);
}

fn print_read(page: &mut Page, bytes: &[u8]) {
    page.put("read ");
    print_bytes(page, bytes, 1000);
}

fn print_refused(page: &mut Page, error: DirError, left: u64) {
    page.put(error_text(error));
    if left > 0 {
        page.put(" left ");
        page.tell(&left);
    }
}

/// Prints the words of a reply.
pub fn print_reply(page: &mut Page, names: &ShortNames, reply: &Reply) {
    match reply {
        Reply::Done => page.put("done"),
        Reply::Begun => page.put("begun"),
        Reply::Opened(handle) => print_opened(page, handle),
        Reply::Names(told) => print_names(page, names, told),
        Reply::Items(items) => print_items(page, items),
        Reply::Read(bytes) => print_read(page, bytes.as_slice()),
        Reply::Refused { error, left } => print_refused(page, *error, *left),
    }
}
