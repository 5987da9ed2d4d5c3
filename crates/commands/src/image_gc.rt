// The command `image gc`.
ghost use Rattle.std.specs.Prelude.{◌≡◌, ◌≤◌, ◌⊎◌, ◌++◌, true, Ok, Err, IfOk, IfErr, IsErrOf, OnOk};
ghost use Rattle.dir_model.specs.Causes.{Rose};
ghost use Rattle.dir_trait.specs.Local.{IsActive};
ghost use Rattle.dir_trait.specs.Effects.{OnlyAsks};
ghost use Rattle.image_removal.specs.Causes.{is_removal_work_refusal};
ghost use Rattle.image_removal.specs.Requests.{sweeps_store};
ghost use Rattle.image_removal.specs.Work.{MaySweepStore, KeepsStandingAndRules, Stays};
ghost use Rattle.commands.specs.ImageRm.{refusal_of_removal};
ghost use Rattle.commands.specs.ImageGc.{sweep_text, sweep_texts, image_gc_refusal, ImageGcSays};

use ac_types::NoMemory;
use command_outcomes::{Output, Refusal};
use dir_trait::{Area, Dir};
use image_reading::StoreError;
use image_removal::{SweepLine, sweep};
use std::alloc::Global;

fn busy_line(area: Area) -> &'static str
    ensures { result.now ≡ sweep_text (SweepLine.BusyGate area) }
{
    match area {
        Area::Embryo => "embryo busy gate\n",
        Area::Prepare => "prepare busy gate\n",
        Area::Prepared => "prepared busy gate\n",
        Area::Run => "run busy gate\n",
        Area::ExitedGarbage => "exited-garbage busy gate\n",
        Area::Garbage => "garbage busy gate\n",
        Area::Incoming => "incoming busy gate\n",
        Area::Images => "images busy gate\n",
        Area::Trees => "trees busy gate\n",
        Area::Removed => "removed busy gate\n",
    }
}

fn folder_line(alloc: Global, name: &str, deed: &str) -> Result<Output, NoMemory>
    ensures { IfOk result (λ line. line ≡ name.now ++ deed.now) }
{
    let mut line = Output::of(alloc, name)?;
    line.push(deed)?;
    Ok(line)
}

fn sweep_line(alloc: Global, line: &SweepLine) -> Result<Output, NoMemory>
    ensures { IfOk result (λ text. text ≡ sweep_text line.now) }
{
    match line {
        SweepLine::Moved(name) => folder_line(alloc, name.as_str(), " moved removed\n"),
        SweepLine::Deleted(name) => folder_line(alloc, name.as_str(), " deleted\n"),
        SweepLine::BusyGate(area) => {
            let line = Output::of(alloc, busy_line(*area))?;
            Ok(line)
        }
    }
}

fn add_line(alloc: Global, text: &mut Output, line: &SweepLine) -> Result<(), NoMemory>
    ensures { OnOk result (text.new ≡ text.old ++ sweep_text line.now) }
{
    let line = sweep_line(alloc, line)?;
    text.append(&line)?;
    Ok(())
}

fn sweep_lines(alloc: Global, lines: &[SweepLine]) -> Result<Output, NoMemory>
    ensures { IfOk result (λ text. text ≡ sweep_texts lines.now) }
{
    let mut text = Output::new(alloc);
    'lines: for line in lines {
        add_line(alloc, &mut text, line)?;
    }
    Ok(text)
}

fn printed_lines(alloc: Global, lines: &[SweepLine]) -> Result<Output, Refusal>
    ensures { (result ≡ Ok (sweep_texts lines.now)) ⊎ (result ≡ Err Refusal.NoMemory) }
{
    match sweep_lines(alloc, lines) {
        Ok(text) => Ok(text),
        Err(_) => Err(Refusal::NoMemory),
    }
}

fn sweep_refusal(error: StoreError) -> Refusal
    requires { is_removal_work_refusal error ≡ true }
    ensures { result ≡ refusal_of_removal error }
{
    match error {
        StoreError::DirFault => Refusal::DirFault,
        StoreError::NoMemory => Refusal::NoMemory,
        StoreError::Stray => Refusal::Stray,
        _ => unreachable!(),
    }
}

/// The lines that `image gc` prints: one of each folder that it moved from incoming to removed, then one of
/// each that it deleted there. Where another process holds the lock of one of these areas, that is the
/// area's line, and its folders are left. `Stray` where the directory's answers contradict what the locks
/// keep; `DirFault` where it failed. Then what was done until then isn't told.
pub fn image_gc<D: Dir>(alloc: Global, dir: &mut D) -> Result<Output, Refusal>
    requires active { IsActive (D.shown dir.old).local }
    ensures worked { OnlyAsks D.observed sweeps_store (D.shown dir.old) (D.shown dir.new) }
    ensures cause { IsErrOf result Refusal.DirFault → Rose (D.shown dir.old).faults (D.shown dir.new).faults }
    ensures refusals { IfErr result (λ r. image_gc_refusal r ≡ true) }
    ensures conforms { D.observed ≡ true → Stays MaySweepStore KeepsStandingAndRules (D.shown dir.old) (D.shown dir.new) }
    ensures says { ImageGcSays D.observed (D.shown dir.old) (D.shown dir.new) result }
{
    match sweep(alloc, dir) {
        Ok(lines) => printed_lines(alloc, lines.as_slice()),
        Err(error) => Err(sweep_refusal(error)),
    }
}
