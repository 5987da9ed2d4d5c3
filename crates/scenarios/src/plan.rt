// What the next command meets: steps of others, failing calls, a kill, how programs end, connections.
use crate::callers::{Caller, add_caller};
use dir_trait::Request;
use scripts::{Line, Page, ShortNames, Unread, request_of};
use std::alloc::Global;

/// A step of another process before a call of the next command, or inside it.
#[derive(Drop)]
pub struct Interlude {
    pub call: u64,
    pub inside: bool,
    pub process: u32,
    pub request: Request,
}

/// How the program of a start ends.
#[derive(Clone, Copy, Drop)]
pub struct End {
    pub start: u64,
    pub status: u8,
}

/// What fails: the call with that number on the data folder, on the bundle, on the spawner, and the write to
/// the output or to the error output, and the call on the listener. Nothing has the number 0.
#[derive(Clone, Copy, Drop)]
pub struct Faults {
    pub dir: u64,
    pub bundle: u64,
    pub spawner: u64,
    pub out: u64,
    pub err: u64,
    pub link: u64,
    /// Before which call on the data folder the process is killed.
    pub stop: u64,
    /// From which read on the files of the bundle begin with another byte.
    pub change: u64,
    /// After how many bytes those files of the bundle end that are to end early.
    pub short: Option<usize>,
}

/// What the next command meets.
#[derive(Drop)]
pub struct Plan {
    pub steps: Vec<Interlude>,
    pub ends: Vec<End>,
    pub callers: Vec<Caller>,
    pub faults: Faults,
}

impl Plan {
    /// Nothing. Takes no memory.
    pub fn new(alloc: Global) -> Plan {
        Plan {
            steps: Vec::new(alloc),
            ends: Vec::new(alloc),
            callers: Vec::new(alloc),
            faults: Faults {
                dir: 0,
                bundle: 0,
                spawner: 0,
                out: 0,
                err: 0,
                link: 0,
                stop: 0,
                change: 0,
                short: None,
            },
        }
    }
}

// A number of a call that may fail: the first is the beginning.
fn call(page: &mut Page, line: &mut Line) -> u64 {
    let number = line.number(page);
    if number < 2 {
        page.unread(Unread::Number);
    }
    number
}

fn fault(page: &mut Page, faults: &mut Faults, line: &mut Line) {
    match line.word() {
        "call" => faults.dir = call(page, line),
        "read" => faults.bundle = line.number(page),
        "spawn" => faults.spawner = line.number(page),
        "write" => faults.out = line.number(page),
        "complaint" => faults.err = line.number(page),
        "link" => faults.link = line.number(page),
        _ => page.unread(Unread::Word),
    }
}

fn add_end(page: &mut Page, ends: &mut Vec<End>, line: &mut Line) {
    let start = line.number(page);
    match line.word().parse::<u8>() {
        Ok(status) => page.push(ends, End { start, status }),
        Err(_) => page.unread(Unread::Number),
    }
}

// `CALL PROCESS REQUEST`
fn add_step(
    page: &mut Page,
    names: &ShortNames,
    steps: &mut Vec<Interlude>,
    inside: bool,
    line: &mut Line,
) {
    let call = line.number(page);
    let process = line.short_number(page);
    let request = request_of(page, names, line);
    let step = Interlude {
        call,
        inside,
        process,
        request,
    };
    page.push(steps, step);
}

/// Takes in a line that says what the next command meets:
/// `before CALL PROCESS REQUEST`, `inside CALL PROCESS REQUEST`, `fail call|read|spawn|write|complaint|link N`,
/// `stop CALL`, `change READ`, `ends START STATUS`, `connection MOST INPUT`. Answers whether it is one. Refused where it can't be read.
pub fn planned(page: &mut Page, names: &ShortNames, plan: &mut Plan, line: &mut Line) -> bool {
    match line.word() {
        "before" => add_step(page, names, &mut plan.steps, false, line),
        "inside" => add_step(page, names, &mut plan.steps, true, line),
        "fail" => fault(page, &mut plan.faults, line),
        "stop" => plan.faults.stop = call(page, line),
        "change" => plan.faults.change = line.number(page),
        "ends" => add_end(page, &mut plan.ends, line),
        "connection" => add_caller(page, names, &mut plan.callers, line),
        _ => return false,
    }
    true
}
