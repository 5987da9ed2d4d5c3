// A command in a scenario.
ghost use Rattle.std.specs.Prelude.{◌≡◌, IfOk, IfSome};
ghost use Rattle.dir_trait.specs.Local.{nothing_local};

use crate::bundles::{Put, bundle_of};
use crate::byte_sink::ByteSink;
use crate::callers::Caller;
use crate::changing::ChangingBundle;
use crate::plan::{End, Faults, Interlude, Plan};
use crate::stage::Stage;
use dir_memory::MemoryDir;
use dir_trait::{Draw, NoMemory, PodId};
use memory_listener::MemoryListener;
use memory_spawner::MemorySpawner;
use rkt_cli::rkt;
use scripts::{Line, Page, ShortNames, Unread, pod_of, unfolded};
use std::alloc::Global;
use std::mem;

/// When a command runs, what it draws, and its words.
#[derive(Drop)]
pub struct Command {
    pub now: u64,
    pub pod: PodId,
    pub words: Vec<String>,
}

/// How a command ended, what it wrote, what it asked of the spawner, and how many connections it met.
#[derive(Drop)]
pub struct Ended {
    pub status: u8,
    pub out: ByteSink,
    pub err: ByteSink,
    pub spawner: MemorySpawner,
    pub listener: MemoryListener,
    pub callers: usize,
}

fn draw(pod: PodId) -> Draw {
    Draw {
        uuid: pod,
        token: [0x11; 16],
        key: [0; 64],
    }
}

// `''` is the empty word.
fn words_of(page: &mut Page, names: &ShortNames, text: &str) -> Vec<String> {
    let mut words = Vec::new(page.alloc());
    for word in text.split(' ') {
        let word = if word == "''" { "" } else { word };
        let word = unfolded(page, names.long(word));
        page.push(&mut words, word);
    }
    words
}

/// The command of the rest of a line `at NOW [draw POD]: WORDS`, of which `at` was read. Without `draw`,
/// what is drawn is the pod of the short name `U1`. Refused where it has no such form.
pub fn command_of(page: &mut Page, names: &ShortNames, line: &mut Line) -> Command {
    let (head, text) = line.rest().split_once(": ").unwrap_or(("", ""));
    if head.is_empty() {
        page.unread(Unread::Missing);
    }
    let mut head = Line::of(head);
    let now = head.number(page);
    let pod = match head.word() {
        "draw" => head.word(),
        _ => "U1",
    };
    let pod = pod_of(page, names.long(pod));
    let words = words_of(page, names, text);
    Command { now, pod, words }
}

// The folder with one step more of another process.
fn with_step(alloc: Global, dir: MemoryDir, step: Interlude) -> Result<MemoryDir, NoMemory>
    requires { dir.local ≡ nothing_local }
    ensures { IfOk result (λ dir. dir.local ≡ nothing_local) }
{
    if step.inside {
        dir.inside(alloc, step.call, step.process, step.request)
    } else {
        dir.schedule(alloc, step.call, step.process, step.request)
    }
}

fn with_steps(alloc: Global, dir: MemoryDir, steps: Vec<Interlude>) -> Result<MemoryDir, NoMemory>
    requires { dir.local ≡ nothing_local }
    ensures { IfOk result (λ dir. dir.local ≡ nothing_local) }
{
    let mut dir = dir;
    'steps: for step in steps {
        dir = with_step(alloc, dir, step)?;
    }
    Ok(dir)
}

// The folder in which a call fails, or the process is killed before one. A begin never fails.
fn with_faults(alloc: Global, dir: MemoryDir, faults: Faults) -> Result<MemoryDir, NoMemory>
    requires { dir.local ≡ nothing_local }
    ensures { IfOk result (λ dir. dir.local ≡ nothing_local) }
{
    if faults.dir >= 2 {
        return dir.fail(alloc, faults.dir);
    }
    if faults.stop >= 2 {
        return Ok(dir.stop(faults.stop));
    }
    Ok(dir)
}

/// The folder for a process that never began. None where it has.
pub fn next(dir: MemoryDir, process: u32) -> Option<MemoryDir>
    ensures { IfSome result (λ dir. dir.local ≡ nothing_local) }
{
    if dir.has_begun(process) {
        return None;
    }
    Some(dir.next_process(process))
}

fn ending(alloc: Global, spawner: MemorySpawner, ends: &[End]) -> Result<MemorySpawner, NoMemory> {
    let mut spawner = spawner;
    for end in ends {
        spawner = spawner.ends(alloc, end.start, end.status)?;
    }
    Ok(spawner)
}

fn spawner_for(alloc: Global, plan: &Plan) -> Result<MemorySpawner, NoMemory> {
    let spawner = ending(alloc, MemorySpawner::new(alloc), plan.ends.as_slice())?;
    if plan.faults.spawner == 0 {
        return Ok(spawner);
    }
    spawner.fail(alloc, plan.faults.spawner)
}

fn called(
    alloc: Global,
    listener: MemoryListener,
    callers: &[Caller],
) -> Result<MemoryListener, NoMemory> {
    let mut listener = listener;
    for caller in callers {
        if caller.most > 0 {
            listener = listener.connection(alloc, caller.input.as_slice(), caller.most)?;
        }
    }
    Ok(listener)
}

fn listener_for(alloc: Global, plan: &Plan) -> Result<MemoryListener, NoMemory> {
    let listener = called(alloc, MemoryListener::new(alloc), plan.callers.as_slice())?;
    if plan.faults.link == 0 {
        return Ok(listener);
    }
    listener.fail(alloc, plan.faults.link)
}

// The outputs, the spawner and the listener before the command.
fn ready(alloc: Global, plan: &Plan) -> Result<Ended, NoMemory> {
    Ok(Ended {
        status: 0,
        out: ByteSink::new(alloc, plan.faults.out),
        err: ByteSink::new(alloc, plan.faults.err),
        spawner: spawner_for(alloc, plan)?,
        listener: listener_for(alloc, plan)?,
        callers: plan.callers.len(),
    })
}

fn run_in(
    alloc: Global,
    command: &Command,
    dir: &mut MemoryDir,
    bundle: &mut ChangingBundle,
    ended: &mut Ended,
)
    requires { dir.old.local ≡ nothing_local }
{
    ended.status = rkt(
        alloc,
        command.words.as_slice(),
        command.now,
        &draw(command.pod),
        dir,
        bundle,
        &mut ended.spawner,
        &mut ended.listener,
        &mut ended.out,
        &mut ended.err,
    );
}

// The folder as the command meets it.
fn met(alloc: Global, dir: MemoryDir, plan: Plan) -> Result<MemoryDir, NoMemory>
    requires { dir.local ≡ nothing_local }
    ensures { IfOk result (λ dir. dir.local ≡ nothing_local) }
{
    let dir = with_steps(alloc, dir, plan.steps)?;
    with_faults(alloc, dir, plan.faults)
}

// Runs the command in a folder for a process that never began, and answers the folder after it, and how it
// ended.
fn run_planned(
    alloc: Global,
    dir: MemoryDir,
    puts: &[Put],
    plan: Plan,
    command: &Command,
) -> Result<(MemoryDir, Ended), NoMemory>
    requires { dir.local ≡ nothing_local }
{
    let mut bundle = bundle_of(alloc, puts, &plan.faults)?;
    let mut ended = ready(alloc, &plan)?;
    let mut dir = met(alloc, dir, plan)?;
    run_in(alloc, command, &mut dir, &mut bundle, &mut ended);
    Ok((dir, ended))
}

/// A number that no process has had yet, from this one on.
pub fn free_number(dir: &MemoryDir, from: u32) -> u32 {
    for number in from..u32::MAX {
        if !dir.has_begun(number) {
            return number;
        }
    }
    from
}

fn run_from(
    alloc: Global,
    stage: &mut Stage,
    from: u32,
    command: &Command,
) -> Option<(Ended, u32)> {
    let dir = stage.dir.take()?;
    let number = free_number(&dir, from);
    let Some(dir) = next(dir, number) else {
        return None;
    };
    let plan = mem::replace(&mut stage.plan, Plan::new(alloc));
    let (dir, ended) = run_planned(alloc, dir, stage.puts.as_slice(), plan, command).ok()?;
    stage.dir = Some(dir);
    Some((ended, number))
}

/// Runs the command as a process that never began, of the first free number from there on, and answers how it
/// ended and that number. None where memory ran out, which ends the script.
pub fn run(
    page: &mut Page,
    stage: &mut Stage,
    from: u32,
    command: &Command,
) -> Option<(Ended, u32)> {
    let ended = run_from(page.alloc(), stage, from, command);
    if ended.is_none() {
        page.no_memory();
    }
    ended
}

/// Runs the command as the next process.
pub fn run_next(page: &mut Page, stage: &mut Stage, command: &Command) -> Option<(Ended, u32)> {
    let from = stage.next;
    let (ended, number) = run(page, stage, from, command)?;
    stage.next = number.saturating_add(1);
    Some((ended, number))
}
