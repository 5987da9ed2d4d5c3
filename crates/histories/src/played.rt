// The lines of a script of histories.
use crate::asked::is_asked;
use crate::definitions::definition;
use crate::life::{killed_of, print_killed, print_last, show};
use crate::meeting::{areas_of, find, is_met, met, print_last_call};
use crate::steps::{event_of, steps_of};
use crate::told::{keeps, may};
use crate::walk::{walk_of, walked};
use dir_trait::PodId;
use scripts::{Line, Page, Player, ShortNames, Unread, block_above, pod_of, says};
use std::alloc::Global;

/// A script of histories, of which nothing is kept from line to line but the short names.
#[derive(Drop)]
pub struct Histories {
    names: ShortNames,
}

// An answer on a line of its own.
fn print_answer(page: &mut Page, answer: &str) {
    page.put("  ");
    page.put(answer);
    page.put("\n");
}

fn print_yes_or_no(page: &mut Page, answer: bool) {
    print_answer(page, if answer { "yes" } else { "no" });
}

fn pod(page: &mut Page, names: &ShortNames, line: &mut Line) -> PodId {
    pod_of(page, names.long(line.word()))
}

// The pod of a block `life POD`.
fn pod_of_life(page: &mut Page, names: &ShortNames, block: &[&str]) -> PodId {
    let mut line = match block.first() {
        Some(first) => Line::of(first),
        None => Line::of(""),
    };
    let _life = line.word();
    pod(page, names, &mut line)
}

fn print_may<'a>(
    page: &mut Page,
    names: &ShortNames,
    lines: &'a [String],
    block: &[&'a str],
    asked: &'a str,
) {
    let mut steps = steps_of(page, lines, block);
    let answer = may(page, names, &mut steps, asked);
    print_answer(page, answer);
}

fn print_keeps<'a>(
    page: &mut Page,
    names: &ShortNames,
    lines: &'a [String],
    block: &[&'a str],
    line: &mut Line,
) {
    let process = line.short_number(page);
    line.end(page);
    let steps = steps_of(page, lines, block);
    let kept = keeps(page, names, steps.as_slice(), process);
    print_yes_or_no(page, kept);
}

// Refused where the line says no steps.
fn check_steps<'a>(page: &mut Page, lines: &'a [String], text: &'a str) {
    let _steps = steps_of(page, lines, &[text]);
}

// A line of a block that begins with `told`.
fn told_line<'a>(
    page: &mut Page,
    names: &ShortNames,
    lines: &'a [String],
    block: &[&'a str],
    text: &'a str,
) {
    let mut line = Line::of(text);
    match line.word() {
        "told" | "do" => check_steps(page, lines, text),
        "may" => print_may(page, names, lines, block, line.rest()),
        "keeps" => print_keeps(page, names, lines, block, &mut line),
        _ => event_line(page, names, text),
    }
}

fn print_step<'a>(
    page: &mut Page,
    names: &ShortNames,
    lines: &'a [String],
    block: &[&'a str],
    text: &'a str,
    pod: PodId,
) {
    event_line(page, names, text);
    let mut steps = steps_of(page, lines, block);
    page.push(&mut steps, text);
    page.put("  ");
    print_last(page, names, steps.as_slice(), pod);
}

fn print_shown<'a>(
    page: &mut Page,
    names: &ShortNames,
    lines: &'a [String],
    block: &[&'a str],
    name: &str,
    pod: PodId,
) {
    let more = definition(page, lines, name);
    let mut steps = steps_of(page, lines, block);
    show(page, names, &mut steps, more.as_slice(), pod);
}

fn print_kills<'a>(
    page: &mut Page,
    names: &ShortNames,
    lines: &'a [String],
    text: &'a str,
    pod: PodId,
) {
    let killed = killed_of(page, text);
    print_killed(page, names, lines, &killed, pod);
}

fn print_walk<'a>(
    page: &mut Page,
    names: &ShortNames,
    lines: &'a [String],
    text: &'a str,
    pod: PodId,
) {
    let walk = walk_of(page, text);
    let pool = definition(page, lines, walk.pool);
    let answer = walked(page, names, &walk, pool.as_slice(), pod);
    print_answer(page, answer);
}

// A line of a block that begins with `life`.
fn life_line<'a>(
    page: &mut Page,
    names: &ShortNames,
    lines: &'a [String],
    block: &[&'a str],
    text: &'a str,
) {
    let pod = pod_of_life(page, names, block);
    let mut line = Line::of(text);
    match line.word() {
        "do" => (),
        "show" => print_shown(page, names, lines, block, line.rest(), pod),
        "killed" => print_kills(page, names, lines, line.rest(), pod),
        "walk" => print_walk(page, names, lines, line.rest(), pod),
        _ => print_step(page, names, lines, block, text, pod),
    }
}

fn print_found(
    page: &mut Page,
    names: &ShortNames,
    lines: &[String],
    block: &[&str],
    line: &mut Line,
) {
    let pod = pod(page, names, line);
    let areas = areas_of(page, line.rest());
    match met(page, names, lines, block) {
        Ok(dir) => find(page, names, dir, areas.as_slice(), pod),
        Err(_) => page.no_memory(),
    }
}

// The calls of process 1 among the lines of a block, the begin first, and then that.
fn calls_of<'a>(page: &mut Page, block: &[&'a str], last: &'a str) -> Vec<&'a str> {
    let mut calls = Vec::new(page.alloc());
    for text in block.iter().skip(1) {
        if !is_met(text) {
            page.push(&mut calls, *text);
        }
    }
    page.push(&mut calls, last);
    calls
}

// Refused where the line says nothing that may be met.
fn check_met(page: &mut Page, names: &ShortNames, lines: &[String], text: &str) {
    if met(page, names, lines, &[text]).is_err() {
        page.no_memory();
    }
}

// A line of a block that begins with `calls`.
fn calls_line<'a>(
    page: &mut Page,
    names: &ShortNames,
    lines: &'a [String],
    block: &[&'a str],
    text: &'a str,
) {
    let mut line = Line::of(text);
    match line.word() {
        "find" => print_found(page, names, lines, block, &mut line),
        _ if is_met(text) => check_met(page, names, lines, text),
        _ => {
            let calls = calls_of(page, block, text);
            print_last_call(page, names, lines, block, calls.as_slice());
        }
    }
}

fn print_asked(page: &mut Page, names: &ShortNames, text: &str) {
    let asked = is_asked(page, names, text);
    print_yes_or_no(page, asked);
}

fn check_life(page: &mut Page, names: &ShortNames, line: &mut Line) {
    let _pod = pod(page, names, line);
    line.end(page);
}

// A line that begins a block.
fn first_line(page: &mut Page, names: &ShortNames, lines: &[String], text: &str) {
    let mut line = Line::of(text);
    match line.word() {
        "define" => (),
        "told" => check_steps(page, lines, text),
        "life" => check_life(page, names, &mut line),
        "calls" => line.end(page),
        "asked" => print_asked(page, names, line.rest()),
        _ => page.unread(Unread::Line),
    }
}

fn event_line(page: &mut Page, names: &ShortNames, text: &str) {
    let _event = event_of(page, names, text);
}

fn said<'a>(page: &mut Page, names: &ShortNames, lines: &'a [String], place: usize, text: &'a str) {
    let block = block_above(page, lines, place);
    let block = block.as_slice();
    let Some(first) = block.first() else {
        return first_line(page, names, lines, text);
    };
    match Line::of(first).word() {
        "define" => event_line(page, names, text),
        "told" => told_line(page, names, lines, block, text),
        "life" => life_line(page, names, lines, block, text),
        "calls" => calls_line(page, names, lines, block, text),
        _ => first_line(page, names, lines, text),
    }
}

impl Histories {
    /// Before any line.
    pub fn new(alloc: Global) -> Histories {
        Histories {
            names: ShortNames::new(alloc),
        }
    }
}

impl Player for Histories {
    fn play(&mut self, page: &mut Page, lines: &[String], place: usize) {
        let Some(text) = lines.get(place) else {
            return;
        };
        let text = text.as_str();
        if !says(text) {
            return;
        }
        if text.contains(" = ") {
            self.names.define(page, text);
        } else {
            said(page, &self.names, lines, place, text);
        }
    }
}
