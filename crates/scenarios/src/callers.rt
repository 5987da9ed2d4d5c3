// The connections that the next command meets, and what was written to them.
use memory_listener::MemoryListener;
use scripts::{Line, Page, ShortNames, Unread, unfolded};
use std::alloc::Global;
use std::str;

/// A connection: what its peer sends until it ends its side, and how many bytes of that one read gives at most.
#[derive(Drop)]
pub struct Caller {
    pub most: usize,
    pub input: Vec<u8>,
}

/// What ends each line of a request and of a reply.
const LINE_END: &str = "\r\n";

// The bytes of a text in which `|` stands for a line's end.
fn input_of(page: &mut Page, text: &str) -> Vec<u8> {
    let mut told = Page::new(page.alloc());
    for (place, piece) in text.split('|').enumerate() {
        told.put_all(&[if place > 0 { LINE_END } else { "" }, piece]);
    }
    let told = told.take();
    match told.as_str().as_bytes().to_vec(page.alloc()) {
        Ok(bytes) => bytes,
        Err(_) => {
            page.no_memory();
            Vec::new(page.alloc())
        }
    }
}

/// Takes in a connection `MOST INPUT`, one read of which gives at most so many bytes. In the input `|` stands for a
/// line's end. Refused where one read gives none.
pub fn add_caller(page: &mut Page, names: &ShortNames, callers: &mut Vec<Caller>, line: &mut Line) {
    let most = line.short_number(page) as usize;
    if most == 0 {
        page.unread(Unread::Number);
    }
    let text = unfolded(page, names.long(line.rest()));
    let input = input_of(page, text.as_str());
    page.push(callers, Caller { most, input });
}

/// Each connection's input ends after so many bytes.
pub fn cut_all(callers: &mut [Caller], length: u64) {
    for caller in callers.iter_mut() {
        if let Ok(length) = usize::try_from(length) {
            caller.input.truncate(length);
        }
    }
}

/// One read of each connection gives at most so many bytes.
pub fn slow_all(callers: &mut [Caller], most: u64) {
    for caller in callers.iter_mut() {
        if let Ok(most) = usize::try_from(most) {
            caller.most = most;
        }
    }
}

fn put_text(page: &mut Page, names: &ShortNames, text: &str) {
    for (place, piece) in text.split(LINE_END).enumerate() {
        if place > 0 {
            page.put("|");
        }
        names.print(page, piece);
    }
}

/// Puts what was written to a connection behind a title: on one line, with `|` for each line's end.
pub fn put_written(
    page: &mut Page,
    names: &ShortNames,
    title: &str,
    listener: &MemoryListener,
    place: usize,
) {
    page.put(title);
    match str::from_utf8(listener.written(place).unwrap_or(b"")) {
        Ok("") => page.put("nothing"),
        Ok(text) => put_text(page, names, text),
        Err(_) => page.put("no text"),
    }
}
