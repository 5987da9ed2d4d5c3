// The lines of a script of buildings.
use crate::imports::{Break, print_import};
use crate::prepares::print_prepared;
use crate::rows::{Row, plan_of, row_of, rows_of};
use crate::steps::check_step;
use crate::sweeps::print_swept;
use crate::trees::print_tree;
use scripts::{Line, Page, Player, ShortNames, Unread, block_above, says};
use std::alloc::Global;

/// A script of buildings, of which nothing is kept from line to line but the short names.
#[derive(Drop)]
pub struct Buildings {
    names: ShortNames,
}

fn broken(page: &mut Page, what: &str, call: u64) -> Break {
    match what {
        "fail" => return Break::Call(call),
        "kill" => return Break::Kill(call),
        "read" => return Break::Read(call),
        _ => page.unread(Unread::Word),
    }
    Break::Nothing
}

// `import WHAT FIRST to LAST`
fn print_imports(
    page: &mut Page,
    names: &ShortNames,
    block: &[&str],
    rows: &[Row],
    line: &mut Line,
) {
    let what = line.word();
    let first = line.number(page);
    let to = line.word();
    let last = line.number(page);
    line.end(page);
    if to != "to" {
        page.unread(Unread::Word);
    }
    for call in first..last.saturating_add(1) {
        page.put("  ");
        page.tell(&call);
        page.put(": ");
        let breaks = broken(page, what, call);
        print_import(page, names, block, rows, breaks);
    }
}

fn import_line(page: &mut Page, names: &ShortNames, block: &[&str], rows: &[Row], line: &mut Line) {
    if !line.rest().is_empty() {
        return print_imports(page, names, block, rows, line);
    }
    page.put("  ");
    print_import(page, names, block, rows, Break::Nothing);
}

fn prepare_line(page: &mut Page, names: &ShortNames, block: &[&str], rows: &[Row], how: &str) {
    match how {
        "under the gate of images" => print_prepared(page, names, block, rows, true),
        "without the gate of images" => print_prepared(page, names, block, rows, false),
        _ => page.unread(Unread::Line),
    }
}

// A line that says what is to be done with the lines above it.
fn deed_line(page: &mut Page, names: &ShortNames, block: &[&str], line: &mut Line) {
    let rows = rows_of(page, block);
    let rows = rows.as_slice();
    match line.word() {
        "import" => import_line(page, names, block, rows, line),
        "prepare" => prepare_line(page, names, block, rows, line.rest()),
        "sweep" => print_swept(page, names, block, rows),
        "tree" => print_tree(page, names, block, rows, line.rest()),
        _ => page.unread(Unread::Line),
    }
}

// Refused where the line is no entry of a plan.
fn check_row(page: &mut Page, names: &ShortNames, row: Row) {
    let _plan = plan_of(page, names, &[row]);
}

fn said(page: &mut Page, names: &ShortNames, block: &[&str], text: &str) {
    if let Some(row) = row_of(text) {
        check_row(page, names, row);
    } else if let Some(step) = text.strip_prefix("before ") {
        check_step(page, names, step);
    } else if !text.starts_with("file ") && !text.starts_with("line ") {
        deed_line(page, names, block, &mut Line::of(text));
    }
}

impl Buildings {
    /// Before any line.
    pub fn new(alloc: Global) -> Buildings {
        Buildings {
            names: ShortNames::new(alloc),
        }
    }
}

impl Player for Buildings {
    fn play(&mut self, page: &mut Page, lines: &[String], place: usize) {
        let Some(text) = lines.get(place) else {
            return;
        };
        let text = text.as_str();
        if !says(text) {
            return;
        }
        if text.contains(" = ") {
            return self.names.define(page, text);
        }
        let block = block_above(page, lines, place);
        said(page, &self.names, block.as_slice(), text);
    }
}
