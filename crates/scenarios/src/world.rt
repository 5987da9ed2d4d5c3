// The world of a scenario, line by line.
use crate::before::{Before, set};
use crate::every::print_each;
use crate::printed::{print_broken, print_differences, print_ended, print_events, print_phases};
use crate::run::{command_of, run_next};
use crate::seen::{print_tree, see};
use crate::stage::Stage;
use scripts::{Line, Page, Player, ShortNames, Unread, print_reply, request_of, spot_of};
use std::alloc::Global;

/// The short names, the scenario that is played, and the place of its first line.
#[derive(Drop)]
pub struct World {
    names: ShortNames,
    stage: Option<Stage>,
    start: usize,
}

fn print_command(page: &mut Page, names: &ShortNames, stage: &mut Stage, line: &mut Line) {
    let command = command_of(page, names, line);
    if let Some((ended, number)) = run_next(page, stage, &command) {
        print_ended(page, names, &ended);
        print_broken(page, stage, number);
        print_differences(page, names, stage);
    }
}

fn print_seen(page: &mut Page, names: &ShortNames, stage: &mut Stage, line: &mut Line) {
    let request = request_of(page, names, line);
    let reply = see(page, stage, request);
    page.put("  ");
    print_reply(page, names, &reply);
    page.put("\n");
}

fn print_calls(page: &mut Page, names: &ShortNames, stage: &Stage, line: &mut Line) {
    let process = line.short_number(page);
    if let Some(dir) = &stage.dir {
        print_events(page, names, dir.history().as_slice(), process);
    }
}

fn print_folder(page: &mut Page, names: &ShortNames, stage: &mut Stage, line: &mut Line) {
    let area = line.word();
    let spot = spot_of(page, area, names.long(line.word()));
    print_tree(page, names, stage, spot);
}

fn print_rules(page: &mut Page, stage: &Stage, line: &mut Line) {
    let process = line.short_number(page);
    print_broken(page, stage, process);
}

// A line that is no title and defines no name.
fn play_line(page: &mut Page, names: &ShortNames, stage: &mut Stage, before: &Before, text: &str) {
    let mut line = Line::of(text);
    match line.word() {
        "at" => print_command(page, names, stage, &mut line),
        "see" => print_seen(page, names, stage, &mut line),
        "tree" => print_folder(page, names, stage, &mut line),
        "phases" => print_phases(page, names, stage),
        "calls" => print_calls(page, names, stage, &mut line),
        "rules" => print_rules(page, stage, &mut line),
        "each" => print_each(page, names, before, &mut line),
        _ => {
            if !set(page, names, stage, text) {
                page.unread(Unread::Line);
            }
        }
    }
}

impl World {
    /// Before the first line.
    pub fn new(alloc: Global) -> World {
        World {
            names: ShortNames::new(alloc),
            stage: None,
            start: 0,
        }
    }

    // The scenario that the lines go on in, or none.
    fn enter(&mut self, stage: Option<Stage>) {
        self.stage = stage;
    }

    // A title begins a scenario, in an empty data folder; a comment inside of one doesn't.
    fn begin(&mut self, page: &mut Page, place: usize) {
        if self.stage.is_none() {
            self.enter(page.made(Stage::new(page.alloc())));
            self.start = place.saturating_add(1);
        }
    }

    // The scenario goes on from where the block with that title ended.
    fn follow(&mut self, page: &mut Page, lines: &[String], title: &str) {
        match Before::block(lines, title) {
            Some(before) => {
                let stage = before.stage(page, &self.names);
                self.enter(stage);
            }
            None => page.unread(Unread::Name),
        }
    }

    fn play_in(&mut self, page: &mut Page, before: &Before, text: &str) {
        match &mut self.stage {
            Some(stage) => play_line(page, &self.names, stage, before, text),
            None => page.unread(Unread::Line),
        }
    }
}

impl Player for World {
    fn play(&mut self, page: &mut Page, lines: &[String], place: usize) {
        let text = match lines.get(place) {
            Some(text) => text.as_str(),
            None => return,
        };
        let before = Before {
            lines,
            from: self.start,
            to: place,
        };
        match text.split_once(' ') {
            None if text.is_empty() => self.enter(None),
            Some(("#", _)) => self.begin(page, place),
            Some(("let", definition)) => self.names.define(page, definition),
            Some(("after", title)) => self.follow(page, lines, title),
            _ => self.play_in(page, &before, text),
        }
    }
}
