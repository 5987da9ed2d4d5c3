// What is printed below a line.
use crate::callers::put_written;
use crate::run::{Command, Ended, run};
use crate::seen::LOOKERS;
use crate::stage::Stage;
use conformance::keeps_rules;
use dir_trait::{Event, Phase, PodId};
use impossible_replies::replay;
use memory_spawner::MemorySpawner;
use scripts::{Page, ShortNames, phase_text, print_reply, print_request};
use spawner::Words;
use std::str;

// The lines of a text, the first in the line of the status where nothing stands there yet. A text that
// doesn't end with a line break was cut.
fn print_text(page: &mut Page, names: &ShortNames, text: &str, first: bool) {
    for (place, line) in text.lines().enumerate() {
        let is_first = first && place == 0;
        page.put(if is_first { " " } else { "\n    " });
        names.print(page, line);
    }
    if !text.is_empty() && !text.ends_with('\n') {
        page.put(" (cut)");
    }
}

fn print_bytes(page: &mut Page, names: &ShortNames, bytes: &[u8], first: bool) {
    match str::from_utf8(bytes) {
        Ok(text) => print_text(page, names, text, first),
        Err(_) => page.put(" no text"),
    }
}

fn print_words(page: &mut Page, names: &ShortNames, title: &str, words: Option<&Words>) {
    let Some(words) = words else {
        return;
    };
    page.put(title);
    for place in 0..words.len() {
        if let Some(word) = words.get(place) {
            page.put(" ");
            names.print(page, word);
        }
    }
}

// What was started: its words, where, and in which environment.
fn print_starts(page: &mut Page, names: &ShortNames, spawner: &MemorySpawner) {
    for start in 0..spawner.starts() {
        let number = start.saturating_add(1);
        print_words(page, names, "  start", spawner.argv(number));
        if let Some(cwd) = spawner.cwd(number) {
            page.put(" | in ");
            page.put(cwd);
        }
        print_words(page, names, " | with", spawner.env(number));
        page.put("\n");
    }
}

// What was written to each connection.
fn print_replies(page: &mut Page, names: &ShortNames, ended: &Ended) {
    for place in 0..ended.callers {
        put_written(page, names, "  wrote ", &ended.listener, place);
        page.put("\n");
    }
}

/// Prints how a command ended: the status, what it wrote, what it started, and what it wrote to connections.
pub fn print_ended(page: &mut Page, names: &ShortNames, ended: &Ended) {
    page.put("  ");
    page.tell(&ended.status);
    let out = ended.out.bytes.as_slice();
    print_bytes(page, names, out, true);
    print_bytes(page, names, ended.err.bytes.as_slice(), out.is_empty());
    page.put("\n");
    print_starts(page, names, &ended.spawner);
    print_replies(page, names, ended);
}

fn print_event(page: &mut Page, names: &ShortNames, event: &Event) {
    page.put("  ");
    print_request(page, names, &event.request);
    page.put(" : ");
    print_reply(page, names, &event.reply);
    page.put("\n");
}

/// Prints what a process asked for, and what it was answered.
pub fn print_events(page: &mut Page, names: &ShortNames, events: &[Event], process: u32) {
    for event in events {
        if event.process == process {
            print_event(page, names, event);
        }
    }
}

/// Prints a line where the process broke a local rule.
pub fn print_broken(page: &mut Page, stage: &Stage, process: u32) {
    let Some(dir) = &stage.dir else {
        return;
    };
    if page.made(keeps_rules(page.alloc(), dir.history(), process)) == Some(false) {
        page.put("  process ");
        page.tell(&process);
        page.put(" broke a rule\n");
    }
}

/// The phase of a pod and its owner, by the history.
pub fn phase_of(page: &mut Page, stage: &Stage, pod: PodId) -> (Option<Phase>, Option<u32>) {
    let Some(dir) = &stage.dir else {
        return (None, None);
    };
    match page.made(replay(page.alloc(), dir.history())) {
        Some(machine) => (machine.phase(pod), machine.owner(pod)),
        None => (None, None),
    }
}

fn print_phase(page: &mut Page, stage: &Stage, name: &str, pod: PodId) {
    let (phase, owner) = phase_of(page, stage, pod);
    if phase.is_none() {
        return;
    }
    page.put("  ");
    page.put(name);
    page.put(" ");
    page.put(phase_text(phase));
    if let Some(owner) = owner {
        page.put(" of ");
        page.tell(&owner);
    }
    page.put("\n");
}

/// Prints the phase and the owner, by the history, of each pod that exists and has a short name.
pub fn print_phases(page: &mut Page, names: &ShortNames, stage: &Stage) {
    for place in 0..names.len() {
        if let Some((short, long)) = names.get(place) {
            if let Some(pod) = PodId::parse(long) {
                print_phase(page, stage, short, pod);
            }
        }
    }
}

fn status_of(page: &mut Page, pod: &str) -> Command {
    let mut words = Vec::new(page.alloc());
    let status = page.text("status");
    page.push(&mut words, status);
    let pod = page.text(pod);
    page.push(&mut words, pod);
    Command {
        now: 0,
        pod: PodId { bytes: [0; 16] },
        words,
    }
}

fn first_line(text: &str) -> &str {
    match text.split_once('\n') {
        Some((first, _)) => first,
        None => text,
    }
}

// The line of the phase that `status` tells of a pod.
fn told(page: &mut Page, stage: &mut Stage, pod: &str) -> String {
    let command = status_of(page, pod);
    let text = match &run(page, stage, LOOKERS, &command) {
        Some((ended, _)) => {
            let text = str::from_utf8(ended.out.bytes.as_slice()).unwrap_or("");
            page.text(first_line(text))
        }
        None => String::new(page.alloc()),
    };
    text
}

fn print_difference(page: &mut Page, stage: &mut Stage, short: &str, long: &str, pod: PodId) {
    let told = told(page, stage, long);
    let phase = match phase_of(page, stage, pod) {
        (None, _) => "",
        (phase, _) => phase_text(phase),
    };
    if told.as_str().strip_prefix("state=").unwrap_or("") != phase {
        page.put("  ");
        page.put(short);
        page.put(" is ");
        page.put(phase);
        page.put(" and told as ");
        page.put(told.as_str());
        page.put("\n");
    }
}

/// Prints a line for each pod with a short name of which a reader tells another phase than the history.
pub fn print_differences(page: &mut Page, names: &ShortNames, stage: &mut Stage) {
    for place in 0..names.len() {
        if let Some((short, long)) = names.get(place) {
            if let Some(pod) = PodId::parse(long) {
                print_difference(page, stage, short, long, pod);
            }
        }
    }
}
