// Makes calls on the data folder, one a word or one a line of the standard input, and prints what each is
// answered: a tool by which the directory of a host is tested. tests/host/directory.sh has its words. What
// stands behind the word `finish` is asked of another directory, once the first has finished.

ghost use Rattle.std.specs.Prelude.{◌≡◌, true};
ghost use Rattle.dir_model.specs.Paths.{is_path};
ghost use Rattle.dir_model.specs.Local.{IsActive};

use crate::dir_calls::{lock, on_folder, on_inner};
use crate::dir_printed::{print_answer, print_count, print_items, print_names};
use crate::dir_step::{Step, step_of};
use crate::shared::{intent, setup_fault};
use anyhow::{Result, anyhow};
use dir_host::{HostDir, Outside, assemble};
use dir_model::is_path;
use dir_trait::{Dir, DirError, Kind, Spot};
use std::io::{Read, Write};
use std::process;

/// Waits until the standard input ends.
fn hold(rt: &HostRuntime) -> Result<()> {
    let mut input = rt.stdin();
    let mut room = [0; 64];
    for _ in 0..u64::MAX {
        if input.read(&mut room)? == 0 {
            break;
        }
    }
    Ok(())
}

/// Writes a piece of a file to the standard output, and tells how long it is. A refusal is printed, and
/// ends the file.
fn copy_piece<D: Dir>(
    rt: &HostRuntime,
    dir: &mut D,
    spot: &Spot,
    path: &str,
    at: u64,
    room: &mut [u8],
) -> Result<usize>
    requires active { IsActive (D.shown dir.old).local }
    requires path { is_path path.now ≡ true }
    ensures { IsActive (D.shown dir.new).local }
{
    match dir.read_in(rt.alloc(), *spot, path, at, room) {
        Ok(count) => {
            rt.stdout().write_all(&room[..count])?;
            Ok(count)
        }
        Err(error) => {
            print_answer(rt, Err(error))?;
            Ok(0)
        }
    }
}

/// Writes a file to the standard output, by pieces of a size.
fn copy<D: Dir>(rt: &HostRuntime, dir: &mut D, spot: &Spot, path: &str, size: usize) -> Result<()>
    requires active { IsActive (D.shown dir.old).local }
    requires path { is_path path.now ≡ true }
    ensures { IsActive (D.shown dir.new).local }
{
    let mut room = vec![in rt.alloc(); 0; size]?;
    let mut at = 0u64;
    'pieces: for _ in 0..u64::MAX {
        let count = copy_piece(rt, dir, spot, path, at, room.as_mut_slice())?;
        if count == 0 {
            break;
        }
        at = at.saturating_add(count as u64);
    }
    Ok(())
}

/// Reads a piece of a file once, and writes it as a line.
fn read_once<D: Dir>(
    rt: &HostRuntime,
    dir: &mut D,
    spot: &Spot,
    path: &str,
    size: usize,
) -> Result<()>
    requires active { IsActive (D.shown dir.old).local }
    requires path { is_path path.now ≡ true }
    ensures { IsActive (D.shown dir.new).local }
{
    let mut room = vec![in rt.alloc(); 0; size]?;
    match dir.read_in(rt.alloc(), *spot, path, 0, room.as_mut_slice()) {
        Ok(count) => {
            rt.stdout().write_all(&room[..count])?;
            println!(rt; "")?;
            print_answer(rt, Ok(()))
        }
        Err(error) => print_answer(rt, Err(error)),
    }
}

/// A call on something in a folder.
fn perform_inside<D: Dir>(
    rt: &HostRuntime,
    dir: &mut D,
    step: &Step<'_>,
    spot: &Spot,
    path: &str,
) -> Result<()>
    requires active { IsActive (D.shown dir.old).local }
    requires path { is_path path.now ≡ true }
    ensures { IsActive (D.shown dir.new).local }
{
    match step {
        Step::List { .. } => print_items(rt, dir.list_in(rt.alloc(), *spot, path)),
        Step::OnInner { call, .. } => {
            print_answer(rt, on_inner(dir, rt.alloc(), *call, *spot, path))
        }
        Step::Append { text, .. } => {
            print_answer(rt, dir.append_in(rt.alloc(), *spot, path, text.as_bytes()))
        }
        Step::Copy { size, .. } => copy(rt, dir, spot, path, *size),
        Step::Read { size, .. } => read_once(rt, dir, spot, path, *size),
        _ => Ok(()),
    }
}

/// One call, and what it is answered.
fn perform<D: Dir>(rt: &HostRuntime, dir: &mut D, step: &Step<'_>) -> Result<()>
    requires { IsActive (D.shown dir.old).local }
    ensures { IsActive (D.shown dir.new).local }
{
    match step {
        Step::Hold => hold(rt),
        Step::Faults => print_count(rt, dir.faults()),
        Step::Lock {
            target,
            mode,
            stays,
        } => print_answer(rt, lock(dir, rt.alloc(), target, *mode, *stays)),
        Step::ListArea(area) => print_names(rt, dir.list_area(rt.alloc(), *area)),
        Step::SyncArea(area) => print_answer(rt, dir.sync_area(rt.alloc(), *area)),
        Step::OnFolder { call, spot } => {
            print_answer(rt, on_folder(dir, rt.alloc(), *call, *spot))
        }
        Step::Move { from, to } => print_answer(rt, dir.move_folder(rt.alloc(), *from, *to)),
        Step::List { spot, path }
        | Step::OnInner { spot, path, .. }
        | Step::Append { spot, path, .. }
        | Step::Copy { spot, path, .. }
        | Step::Read { spot, path, .. } => {
            if is_path(path.as_bytes()) {
                perform_inside(rt, dir, step, spot, path)
            } else {
                Err(anyhow!("no such path"))
            }
        }
    }
}

/// One call, as its words name it.
fn perform_call<D: Dir>(rt: &HostRuntime, dir: &mut D, call: &str) -> Result<()>
    requires { IsActive (D.shown dir.old).local }
    ensures { IsActive (D.shown dir.new).local }
{
    let words: Vec<&str> = call.split(' ').collect(rt.alloc())?;
    match step_of(words.as_slice()) {
        Some(step) => perform(rt, dir, &step),
        None => Err(anyhow!("no such call")),
    }
}

/// The calls that the lines of the standard input name, each as soon as its line is there.
fn perform_lines<D: Dir>(rt: &HostRuntime, dir: &mut D) -> Result<()>
    requires { IsActive (D.shown dir.old).local }
    ensures { IsActive (D.shown dir.new).local }
{
    'lines: for line in rt.lines(rt.alloc()) {
        perform_call(rt, dir, line?.as_str())?;
    }
    Ok(())
}

/// The calls, one after the other. The word `lines` stands for those of the standard input.
fn perform_all<D: Dir>(rt: &HostRuntime, dir: &mut D, calls: &[String]) -> Result<()>
    requires { IsActive (D.shown dir.old).local }
    ensures { IsActive (D.shown dir.new).local }
{
    'calls: for call in calls {
        if call.as_str() == "lines" {
            perform_lines(rt, dir)?;
        } else {
            perform_call(rt, dir, call.as_str())?;
        }
    }
    Ok(())
}

fn refused(_error: DirError) -> anyhow::Error {
    anyhow!("no begin")
}

/// Asks one directory, which has finished then and still stands.
fn play<'a>(rt: &'a HostRuntime, calls: &[String]) -> Result<HostDir<&'a HostRuntime>> {
    let Outside { now, draw, mut dir } = assemble(rt, process::id(rt.process())).map_err(
        setup_fault,
    )?;
    dir.begin(rt.alloc(), intent(Kind::Status, now, &draw))
        .map_err(refused)?;
    let done = perform_all(rt, &mut dir, calls);
    dir.finish();
    done?;
    Ok(dir)
}

/// The calls before the word `finish`, and those behind it.
fn parted(calls: &[String]) -> (&[String], &[String]) {
    for place in 0..calls.len() {
        if calls[place].as_str() == "finish" {
            return (&calls[..place], &calls[place + 1..]);
        }
    }
    (calls, &[])
}

/// Makes the calls that the words name.
pub fn run(rt: &HostRuntime, calls: &[String]) -> Result<()> {
    let (first, second) = parted(calls);
    let _finished = play(rt, first)?;
    if !second.is_empty() {
        play(rt, second)?;
    }
    Ok(())
}
