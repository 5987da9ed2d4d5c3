// The demo.
ghost use Rattle.std.specs.Prelude.{◌≡◌, ◌≤◌, ◌+◌, ◌∷◌, ◌++◌, [], Ok, Err, IfOk};
ghost use Rattle.dir_trait.specs.Local.{nothing_local};
ghost use Rattle.demo_line.specs.Numbers.{count_below, demo_line, is_run_pod, numbers_line};
ghost use Rattle.demo_tally.specs.Tallies.{tally_of};
ghost use Rattle.rkt_cli.specs.DemoCommand.{EndsDemo};
ghost use Rattle.rkt_cli.specs.Plays.{Plays, TellsPlayed, empty_stage};
ghost use Rattle.rkt_cli.specs.Turns.{imports, last_turns, prepare_turns, runs_of, turns};

use crate::line::Line;
use crate::stage::{Stage, play_turn};
use crate::turn::{bare_turn, import_turn, prepare_turn, run_turn};
use command_outcomes::{Output, Refusal};
use demo_line::{demo_numbers, is_run, numbers_line};
use demo_tally::tally_of;
use dir_memory::MemoryDir;
use dir_trait::NoMemory;
use std::alloc::Global;

/// When pods are swept, in seconds, and then again.
const SWEPT_AT: u64 = 2_000;

const SWEPT_AGAIN_AT: u64 = 3_800;

/// The times of a sweep that is given none, in seconds.
const GRACE: u64 = 1_800;

const EXPIRE: u64 = 86_400;

fn import_all(alloc: Global, stage: Stage, count: u32) -> Result<Stage, NoMemory>
    requires fresh { stage.dir.local ≡ nothing_local }
    ensures fresh { IfOk result (λ new. new.dir.local ≡ nothing_local) }
    ensures plays { IfOk result (λ new. Plays (imports count) stage new) }
{
    let mut current = stage;
    'images: for image in 0..count {
        let turn = import_turn(alloc, image)?;
        current = play_turn(alloc, current, turn)?;
    }
    Ok(current)
}

fn prepare_all(alloc: Global, stage: Stage, count: u32) -> Result<Stage, NoMemory>
    requires fresh { stage.dir.local ≡ nothing_local }
    ensures fresh { IfOk result (λ new. new.dir.local ≡ nothing_local) }
    ensures plays { IfOk result (λ new. Plays (prepare_turns count) stage new) }
{
    let mut current = stage;
    'pods: for pod in 0..count {
        let turn = prepare_turn(alloc, pod)?;
        current = play_turn(alloc, current, turn)?;
    }
    Ok(current)
}

fn run_all(alloc: Global, stage: Stage, count: u32) -> Result<Stage, NoMemory>
    requires fresh { stage.dir.local ≡ nothing_local }
    requires few { count ≤ 100 }
    ensures fresh { IfOk result (λ new. new.dir.local ≡ nothing_local) }
    ensures plays { IfOk result (λ new. Plays (runs_of count count) stage new) }
{
    let mut current = stage;
    'pods: for pod in 0..count {
        if is_run(pod) {
            let turn = run_turn(alloc, count, pod)?;
            current = play_turn(alloc, current, turn)?;
        }
    }
    Ok(current)
}

// The two sweeps and the list at the end. So many commands drew before.
fn end_all(alloc: Global, stage: Stage, drawn: u32) -> Result<Stage, NoMemory>
    requires fresh { stage.dir.local ≡ nothing_local }
    requires few { drawn ≤ 200 }
    ensures plays { IfOk result (λ new. Plays (last_turns drawn) stage new) }
{
    let sweep = bare_turn(alloc, Line::Gc(GRACE, EXPIRE), SWEPT_AT, drawn);
    let stage = play_turn(alloc, stage, sweep)?;
    let sweep = bare_turn(alloc, Line::Gc(GRACE, EXPIRE), SWEPT_AGAIN_AT, drawn + 1);
    let stage = play_turn(alloc, stage, sweep)?;
    let list = bare_turn(alloc, Line::PodList, SWEPT_AGAIN_AT, drawn + 2);
    play_turn(alloc, stage, list)
}

// How many of the pods are run.
fn count_runs(count: u32) -> u32
    requires { count ≤ 100 }
    ensures runs { result ≡ count_below is_run_pod count }
    ensures few { result ≤ count }
{
    let mut runs: u32 = 0;
    'pods: for pod in 0..count {
        if is_run(pod) {
            runs += 1;
        }
    }
    runs
}

// All commands of the demo, on an empty data folder.
fn play(alloc: Global, count: u32) -> Result<Stage, NoMemory>
    requires { count ≤ 100 }
    ensures { IfOk result (λ stage. Plays (turns count) empty_stage stage) }
{
    let dir = MemoryDir::new(alloc, 0)?;
    let stage = Stage {
        dir,
        failed: 0,
        lines: 0,
    };
    let stage = import_all(alloc, stage, count)?;
    let stage = prepare_all(alloc, stage, count)?;
    let stage = run_all(alloc, stage, count)?;
    end_all(alloc, stage, count + count_runs(count))
}

// The line of the numbers that the history shows, where they are those of the demo.
fn line_of(alloc: Global, count: u32, stage: &Stage) -> Result<Output, NoMemory>
    requires { count ≤ 100 }
    ensures line { IfOk result (λ text. text ≡ demo_line count) }
    ensures counted { IfOk result (λ text. text ≡ numbers_line (tally_of stage.now.dir.trace stage.now.failed stage.now.lines)) }
{
    let Some(counted) = tally_of(stage.dir.history(), stage.failed, stage.lines) else {
        return Err(NoMemory);
    };
    if counted != demo_numbers(count) {
        return Err(NoMemory);
    }
    let line = numbers_line(alloc, counted)?;
    Ok(line)
}

/// Plays the demo of `count` images: its commands one after the other, on a data folder, bundles and spawners in memory of
/// its own. The line that is answered tells what their history shows and what they told.
///
/// Refused only where memory ran out, and then with `NoMemory`. That is also the answer where a command of the demo is
/// refused, or where what they come to isn't what a demo comes to: it isn't proved of the commands that neither can be, as
/// long as it isn't proved that no reply of the directory is stray. A line that is wrong is never answered.
pub fn demo(alloc: Global, count: u32) -> Result<Output, Refusal>
    requires few { count ≤ 100 }
    ensures ends { EndsDemo count result }
    ensures plays { IfOk result (λ text. TellsPlayed count text) }
{
    let Ok(stage) = play(alloc, count) else {
        return Err(Refusal::NoMemory);
    };
    match line_of(alloc, count, &stage) {
        Ok(line) => Ok(line),
        Err(_) => Err(Refusal::NoMemory),
    }
}
