// Steps that processes take on the data folder in memory, and what is then told of a pod.
ghost use Rattle.std.specs.Prelude.{◌≡◌, IfOk};
ghost use Rattle.dir_trait.specs.Local.{nothing_local};

use crate::steps::{process_of, whole_request};
use conformance::keeps_rules;
use dir_memory::MemoryDir;
use dir_trait::{Dir, Event, Intent, Kind, NoMemory, Phase, PodId, PodPrefix, Reply, Request};
use impossible_replies::replay;
use phase_read::{Found, LookError, read_phase};
use scripts::{Page, ShortNames, Unread, print_reply};
use std::alloc::Global;

/// What a reader finds of a pod, what the history says of it, and which process broke a local rule.
#[derive(Clone, Copy, PartialEq, Eq)]
pub struct Told {
    pub found: Option<Phase>,
    pub phase: Option<Phase>,
    pub owner: Option<u32>,
    pub broke: Option<u32>,
}

/// The same folder with one step more of another process, before a call of this one or inside it.
pub fn with_step(
    page: &mut Page,
    names: &ShortNames,
    dir: MemoryDir,
    call: u64,
    inside: bool,
    text: &str,
) -> Result<MemoryDir, NoMemory>
    requires { dir.local ≡ nothing_local }
    ensures { IfOk result (λ dir. dir.local ≡ nothing_local) }
{
    let (process, asked) = process_of(page, text);
    if process == 1 {
        page.unread(Unread::Process);
    }
    let request = whole_request(page, names, asked);
    if inside {
        dir.inside(page.alloc(), call, process, request)
    } else {
        dir.schedule(page.alloc(), call, process, request)
    }
}

// The folder in which these steps come before the second call of process 1.
fn folder(page: &mut Page, names: &ShortNames, steps: &[&str]) -> Result<MemoryDir, NoMemory>
    ensures { IfOk result (λ dir. dir.local ≡ nothing_local) }
{
    let mut dir = MemoryDir::new(page.alloc(), 1)?;
    'steps: for step in steps {
        dir = with_step(page, names, dir, 2, false, step)?;
    }
    Ok(dir)
}

/// What a reader says when it begins.
pub fn reading() -> Intent {
    Intent {
        kind: Kind::Status,
        word: PodPrefix::empty(),
        now: 1000,
        grace: 1800,
        expire: 86_400,
        draw: PodId { bytes: [1; 16] },
        token: [1; 16],
    }
}

/// The phase that was found. None where no pod was.
pub fn phase_found(found: Result<Found, LookError>) -> Option<Phase> {
    match found {
        Ok(Found::At(phase, _)) => Some(phase),
        Ok(Found::Gone) | Err(_) => None,
    }
}

// What a reader that begins now finds of the pod. None where it finds none.
fn found<D: Dir>(alloc: Global, dir: &mut D, pod: PodId) -> Option<Phase>
    requires { (D.shown dir.old).local ≡ nothing_local }
{
    match dir.begin(alloc, reading()) {
        Ok(()) => phase_found(read_phase(alloc, dir, pod)),
        Err(_) => None,
    }
}

// The first process that broke a rule.
fn broken(page: &mut Page, dir: &MemoryDir) -> Option<u32> {
    let mut broke = None;
    'processes: for process in 1..9 {
        let keeps = page.made(keeps_rules(page.alloc(), dir.history(), process));
        if keeps == Some(false) && broke.is_none() {
            broke = Some(process);
        }
    }
    broke
}

/// What is told of the pod where that was found of it.
pub fn told_of(page: &mut Page, dir: &MemoryDir, pod: PodId, found: Option<Phase>) -> Told {
    let mut told = Told {
        found,
        phase: None,
        owner: None,
        broke: broken(page, dir),
    };
    if let Some(machine) = page.made(replay(page.alloc(), dir.history())) {
        told.phase = machine.phase(pod);
        told.owner = machine.owner(pod);
    }
    told
}

/// The folder after these steps, and what a reader then found of the pod. None where memory ran out.
pub fn after(
    page: &mut Page,
    names: &ShortNames,
    steps: &[&str],
    pod: PodId,
) -> Option<(MemoryDir, Option<Phase>)> {
    match folder(page, names, steps) {
        Ok(dir) => {
            let mut dir = dir;
            let found = found(page.alloc(), &mut dir, pod);
            Some((dir, found))
        }
        Err(_) => {
            page.no_memory();
            None
        }
    }
}

/// What is told of the pod after these steps.
pub fn told_after(page: &mut Page, names: &ShortNames, steps: &[&str], pod: PodId) -> Told {
    match after(page, names, steps, pod) {
        Some((dir, found)) => told_of(page, &dir, pod, found),
        None => Told {
            found: None,
            phase: None,
            owner: None,
            broke: None,
        },
    }
}

/// How many events are of others than process 1.
pub fn of_others(dir: &MemoryDir) -> usize {
    let mut count: usize = 0;
    for event in dir.history().as_slice() {
        if event.process != 1 {
            count = count.saturating_add(1);
        }
    }
    count
}

fn last_reply(events: &[Event]) -> Option<&Reply> {
    let mut last = None;
    for event in events {
        if event.process != 1 {
            last = Some(&event.reply);
        }
    }
    last
}

/// Prints what the last step of another process than 1 was answered.
pub fn print_last_reply(page: &mut Page, names: &ShortNames, dir: &MemoryDir) {
    if let Some(reply) = last_reply(dir.history().as_slice()) {
        print_reply(page, names, reply);
    }
}
