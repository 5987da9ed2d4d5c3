// A command that breaks at each of its calls in turn.
use crate::before::Before;
use crate::callers::{cut_all, put_written, slow_all};
use crate::plan::{Interlude, Plan};
use crate::printed::phase_of;
use crate::run::{Command, Ended, command_of, run_next};
use crate::seen::see;
use crate::stage::Stage;
use conformance::keeps_rules;
use dir_trait::{Area, Event, PodId, Reply, Request};
use scripts::{Line, Page, ShortNames, Unread, area_text, number_of, phase_text};
use std::str;

// The steps of others that have no call of their own come before that one.
fn place_steps(steps: &mut [Interlude], number: u64) {
    for step in steps.iter_mut() {
        if step.call == 0 {
            step.call = number;
        }
    }
}

// Which call breaks, and how.
fn break_at(page: &mut Page, plan: &mut Plan, kind: &str, number: u64) {
    match kind {
        "call" => plan.faults.dir = number,
        "stop" => plan.faults.stop = number,
        "read" => plan.faults.bundle = number,
        "spawn" => plan.faults.spawner = number,
        "write" => plan.faults.out = number,
        "complaint" => plan.faults.err = number,
        "link" => plan.faults.link = number,
        "cut" => cut_all(plan.callers.as_mut_slice(), number),
        "pieces" => slow_all(plan.callers.as_mut_slice(), number),
        "before" => place_steps(plan.steps.as_mut_slice(), number),
        "short" => plan.faults.short = Some(number as usize),
        _ => page.unread(Unread::Word),
    }
}

fn add_lines(page: &mut Page, bytes: &[u8]) {
    for line in str::from_utf8(bytes).unwrap_or("no text").lines() {
        page.put(" | ");
        page.put(line);
    }
}

fn add_phase(page: &mut Page, stage: &Stage, short: &str, pod: PodId) {
    let (phase, _) = phase_of(page, stage, pod);
    if phase.is_some() {
        page.put(" | ");
        page.put(short);
        page.put(" ");
        page.put(phase_text(phase));
    }
}

fn add_phases(page: &mut Page, names: &ShortNames, stage: &Stage) {
    for place in 0..names.len() {
        if let Some((short, long)) = names.get(place) {
            if let Some(pod) = PodId::parse(long) {
                add_phase(page, stage, short, pod);
            }
        }
    }
}

// Whether the process made a file there.
fn makes(event: &Event, process: u32, front: &[u8]) -> bool {
    match (&event.request, &event.reply) {
        (Request::MakeFileIn(inner), Reply::Done) => {
            event.process == process && inner.path.as_slice().starts_with(front)
        }
        _ => false,
    }
}

fn count_made(events: &[Event], process: u32, front: &[u8]) -> u64 {
    let mut count: u64 = 0;
    for event in events {
        if makes(event, process, front) {
            count = count.saturating_add(1);
        }
    }
    count
}

fn add_count(page: &mut Page, title: &str, count: u64) {
    page.put(" | ");
    page.put(title);
    page.put(" ");
    page.tell(&count);
}

// What became of the apps: how many programs were started, apps marked, and statuses written.
fn add_apps(page: &mut Page, events: &[Event], starts: u64, process: u32) {
    let marks = count_made(events, process, b"started-");
    let statuses = count_made(events, process, b"stage1/rootfs/rkt/status/");
    if starts > 0 || marks > 0 {
        add_count(page, "starts", starts);
        add_count(page, "marks", marks);
        add_count(page, "statuses", statuses);
    }
}

const STORE: [Area; 3] = [Area::Incoming, Area::Images, Area::Removed];

fn add_folders(page: &mut Page, area: Area, reply: &Reply) {
    if let Reply::Names(names) = reply {
        let count = names.as_slice().len() as u64;
        if count > 0 {
            add_count(page, area_text(area), count);
        }
    }
}

// How many folders stand in each area of the store.
fn add_store(page: &mut Page, stage: &mut Stage) {
    for area in STORE {
        let reply = see(page, stage, Request::ListArea(area));
        add_folders(page, area, &reply);
    }
}

// What was written to each connection.
fn add_replies(page: &mut Page, names: &ShortNames, ended: &Ended) {
    for place in 0..ended.callers {
        put_written(page, names, " | wrote ", &ended.listener, place);
    }
}

// How a command ended, in one line: the status, what it wrote, to its connections too, its apps, the pods that exist
// then, and how many folders the store has.
fn add_summary(page: &mut Page, names: &ShortNames, stage: &mut Stage, ended: &Ended, number: u32) {
    page.tell(&ended.status);
    add_lines(page, ended.out.bytes.as_slice());
    add_lines(page, ended.err.bytes.as_slice());
    add_replies(page, names, ended);
    if let Some(dir) = &stage.dir {
        let events = dir.history().as_slice();
        add_apps(page, events, ended.spawner.starts(), number);
    }
    add_phases(page, names, stage);
    add_store(page, stage);
    if let Some(dir) = &stage.dir {
        if page.made(keeps_rules(page.alloc(), dir.history(), number)) == Some(false) {
            page.put(" | broke a rule");
        }
    }
}

fn add_command(page: &mut Page, names: &ShortNames, commands: &mut Vec<Command>, text: &str) {
    let mut line = Line::of(text);
    if line.word() != "at" {
        page.unread(Unread::Word);
    }
    let command = command_of(page, names, &mut line);
    page.push(commands, command);
}

// The commands of a text `at NOW: WORDS ; at NOW: WORDS`.
fn commands_of(page: &mut Page, names: &ShortNames, text: &str) -> Vec<Command> {
    let mut commands = Vec::new(page.alloc());
    for part in text.split(" ; ") {
        add_command(page, names, &mut commands, part);
    }
    commands
}

// Runs the commands, and adds how they ended.
fn add_commands(page: &mut Page, names: &ShortNames, stage: &mut Stage, commands: &[Command]) {
    let mut between = "";
    for command in commands {
        page.put(between);
        between = " ; ";
        if let Some((ended, process)) = run_next(page, stage, command) {
            add_summary(page, names, stage, &ended, process);
        }
    }
}

// How the commands ended of which the first broke so.
fn broken(
    page: &mut Page,
    names: &ShortNames,
    before: &Before,
    commands: &[Command],
    kind: &str,
    number: u64,
) -> String {
    let mut told = Page::new(page.alloc());
    if let Some(stage) = before.stage(&mut told, names) {
        let mut stage = stage;
        break_at(&mut told, &mut stage.plan, kind, number);
        add_commands(&mut told, names, &mut stage, commands);
    }
    if let Some(refusal) = told.refusal() {
        page.refuse(refusal);
    }
    told.take()
}

fn print_calls(page: &mut Page, names: &ShortNames, first: u64, last: u64, how: &str) {
    page.put("  ");
    page.tell(&first);
    page.put("..");
    page.tell(&last);
    page.put(" = ");
    names.print(page, how);
    page.put("\n");
}

// A line for numbers in a row with which the commands ended in the same way.
fn print_range(
    page: &mut Page,
    names: &ShortNames,
    before: &Before,
    commands: &[Command],
    kind: &str,
    range: (u64, u64),
) {
    let (from, to) = range;
    let mut first = from;
    let mut how = broken(page, names, before, commands, kind, from);
    for number in from.saturating_add(1)..=to {
        let now = broken(page, names, before, commands, kind, number);
        if now.as_str() != how.as_str() {
            print_calls(page, names, first, number.saturating_sub(1), how.as_str());
            first = number;
            how = now;
        }
    }
    print_calls(page, names, first, to, how.as_str());
}

// The number of the last call on the data folder that the first command makes where nothing breaks.
fn last_call(page: &mut Page, names: &ShortNames, before: &Before, commands: &[Command]) -> u64 {
    let mut told = Page::new(page.alloc());
    if let Some(stage) = before.stage(&mut told, names) {
        let mut stage = stage;
        if let Some(command) = commands.first() {
            let _ended = run_next(&mut told, &mut stage, command);
        }
        if let Some(dir) = &stage.dir {
            return dir.calls();
        }
    }
    0
}

/// Plays a line `each KIND FROM TO at NOW: WORDS`, of which `each` was read: the command after the lines, in
/// a world of its own for each number, at which the call of that kind breaks, or before which the steps of
/// others come that were planned before call 0; behind ` ; ` further commands that come then. Prints how
/// they ended, a line for numbers in a row with which they ended in the same way. `last` in place of the second
/// number is that of the last call on the data folder.
pub fn print_each(page: &mut Page, names: &ShortNames, before: &Before, line: &mut Line) {
    let kind = line.word();
    let from = line.number(page);
    let last = line.word();
    let commands = commands_of(page, names, line.rest());
    let to = match last {
        "last" => last_call(page, names, before, commands.as_slice()),
        _ => number_of(page, last),
    };
    print_range(page, names, before, commands.as_slice(), kind, (from, to));
}
