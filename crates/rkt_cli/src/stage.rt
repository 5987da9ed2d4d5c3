// The data folder of the demo, on which one command after the other is performed.
ghost use Rattle.std.specs.Prelude.{◌≡◌, ℕ, ◌==◌, false, IfOk, IfSome};
ghost use Rattle.std.specs.List.{count_by};
ghost use Rattle.dir_trait.specs.Local.{nothing_local};
ghost use Rattle.dir_memory.specs.Memories.{passed_on};
ghost use Rattle.command_outcomes.specs.declared.told.Told.{Told};
ghost use Rattle.rkt_cli.specs.Plays.{failed_after, count_of_lines, TurnWasPlayed, HasPassedOn};
ghost use Rattle.rkt_cli.specs.Tasks.{is_demo};

use crate::perform::perform;
use crate::turn::Turn;
use command_outcomes::Told;
use dir_memory::MemoryDir;
use dir_trait::NoMemory;
use memory_listener::MemoryListener;
use std::alloc::Global;

/// The data folder before the next command, how many commands told so far that not all went well, and how many lines
/// the last one printed.
#[derive(Drop)]
pub(crate) struct Stage {
    pub dir: MemoryDir,
    pub failed: u64,
    pub lines: u64,
}

fn line_feeds(text: &[u8]) -> usize
    ensures { result ≡ count_by (λ b. b == 10) text.now }
{
    text.iter().filter(|byte| **byte == 10).count()
}

// The folder for the next process. It has the next number, by which none has begun.
fn next_process(dir: MemoryDir) -> Result<MemoryDir, NoMemory>
    ensures { IfOk result (λ next. (process : ℕ) × (next ≡ passed_on dir process)) }
{
    let process = dir.number().saturating_add(1);
    if dir.has_begun(process) {
        return Err(NoMemory);
    }
    Ok(dir.next_process(process))
}

fn failed_after(failed: u64, well: bool) -> Option<u64>
    ensures { IfSome result (λ n. n ≡ failed_after failed well) }
{
    if well {
        Some(failed)
    } else {
        failed.checked_add(1)
    }
}

// The stage once a command told this.
fn after(stage: Stage, told: &Told) -> Result<Stage, NoMemory>
    ensures { IfOk result (λ new. HasPassedOn told.now stage new) }
{
    let Some(failed) = failed_after(stage.failed, told.well) else {
        return Err(NoMemory);
    };
    let lines = line_feeds(told.text.as_slice()) as u64;
    let dir = next_process(stage.dir)?;
    Ok(Stage { dir, failed, lines })
}

/// Performs a command, in the process that comes next. Where it is refused the answer is as for want of memory: nothing
/// else is to hinder a command of the demo.
pub(crate) fn play_turn(alloc: Global, stage: Stage, turn: Turn) -> Result<Stage, NoMemory>
    requires fresh { stage.dir.local ≡ nothing_local }
    requires whole { is_demo turn.line ≡ false }
    ensures fresh { IfOk result (λ new. new.dir.local ≡ nothing_local) }
    ensures went { IfOk result (λ new. TurnWasPlayed turn stage new) }
{
    let mut stage = stage;
    let mut turn = turn;
    let mut listener = MemoryListener::new(alloc);
    match perform(
        alloc,
        &turn.line,
        turn.now,
        &turn.draw,
        &mut stage.dir,
        &mut turn.bundle,
        &mut turn.spawner,
        &mut listener,
    ) {
        Ok(told) => after(stage, &told),
        Err(_) => Err(NoMemory),
    }
}
