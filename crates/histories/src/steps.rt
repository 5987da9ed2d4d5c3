// Steps of processes, as lines say them: `PROCESS: REQUEST -> REPLY`.
use crate::definitions::{add_definition, most_of};
use crate::performed::reading;
use dir_trait::{Event, Intent, Request};
use scripts::{Line, Page, ShortNames, Unread, reply_of, request_of};

/// What stands before a sign, and behind it. Refused where the sign lacks.
pub fn parted<'a>(page: &mut Page, text: &'a str, sign: &str) -> (&'a str, &'a str) {
    if let Some(parts) = text.split_once(sign) {
        return parts;
    }
    page.unread(Unread::Missing);
    (text, "")
}

/// The process of a step, and what follows. It is process 1 where none is named.
pub fn process_of<'a>(page: &mut Page, text: &'a str) -> (u32, &'a str) {
    let Some((process, asked)) = text.split_once(": ") else {
        return (1, text);
    };
    (Line::of(process).short_number(page), asked)
}

/// The request of a text. Refused where something follows it. A piece that is appended is the rest of its line.
pub fn whole_request(page: &mut Page, names: &ShortNames, asked: &str) -> Request {
    let mut line = Line::of(asked);
    let request = request_of(page, names, &mut line);
    if !asked.starts_with("append ") {
        line.end(page);
    }
    request
}

/// What a process says when it begins, as a line says it.
pub fn begin_of(page: &mut Page, names: &ShortNames, asked: &str) -> Intent {
    match &whole_request(page, names, asked) {
        Request::Begin(intent) => *intent,
        _ => {
            page.unread(Unread::Process);
            reading()
        }
    }
}

/// The event of a step. It is answered `done` where no reply is told.
pub fn event_of(page: &mut Page, names: &ShortNames, text: &str) -> Event {
    let (asked, answer) = text.split_once(" -> ").unwrap_or((text, "done"));
    let (process, asked) = process_of(page, asked);
    let request = whole_request(page, names, asked);
    let reply = reply_of(page, names, &mut Line::of(answer));
    Event {
        process,
        request,
        reply,
    }
}

fn add_each<'a>(page: &mut Page, steps: &mut Vec<&'a str>, lines: &'a [String], names: &str) {
    for name in names.split(' ') {
        add_definition(page, steps, lines, name, u64::MAX);
    }
}

fn add_first<'a>(page: &mut Page, steps: &mut Vec<&'a str>, lines: &'a [String], line: &mut Line) {
    let name = line.word();
    let most = most_of(page, line);
    add_definition(page, steps, lines, name, most);
}

// The steps that a line says: those of definitions, its own, or none. A history that is told begins anew.
fn add_line<'a>(page: &mut Page, steps: &mut Vec<&'a str>, lines: &'a [String], text: &'a str) {
    let mut line = Line::of(text);
    match line.word() {
        "told" => {
            steps.clear();
            add_each(page, steps, lines, line.rest());
        }
        "do" | "show" => add_first(page, steps, lines, &mut line),
        "life" | "may" | "keeps" | "killed" => (),
        _ => page.push(steps, text),
    }
}

/// The steps that these lines say.
pub fn steps_of<'a>(page: &mut Page, lines: &'a [String], block: &[&'a str]) -> Vec<&'a str> {
    let mut steps = Vec::new(page.alloc());
    for text in block {
        add_line(page, &mut steps, lines, text);
    }
    steps
}
