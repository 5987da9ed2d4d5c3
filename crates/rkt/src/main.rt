//! The program `rkt`: it is given its words and its data folder, and does what the top call does.
#![tactic(auto)]

mod help;
mod texts;

ghost use Rattle.std.specs.Prelude.{◌≡◌, ◌⊎◌, ◌++◌, true};
ghost use Rattle.dir_trait.specs.Causes.{Rose};
ghost use Rattle.command_outcomes.specs.Texts.{exit_status_of};

use crate::help::text_alone;
use command_outcomes::Refusal;
use dir_host::{HostBundle, HostSink, Outside, SetupError, assemble, find_root, read_words};
use dir_trait::{Sink, SinkError, write_whole};
use host_listener::HostListener;
use host_spawner::HostSpawner;
use rkt_cli::{named_path, read_line, refuse, rkt};
use rkt_words::WordsError;
use std::alloc::Global;
use std::process;
use std::process::ExitCode;

/// Prints a text, and gives the exit status.
fn print_alone<O: Sink, E: Sink>(alloc: Global, text: &str, out: &mut O, err: &mut E) -> u8
    ensures statuses { (result ≡ 0) ⊎ (result ≡ 12) ⊎ (result ≡ 14) }
    ensures whole { result ≡ 0 → O.observed ≡ true → (O.shown out.new).bytes ≡ (O.shown out.old).bytes ++ text.now }
    ensures fault { result ≡ 12 → Rose (O.shown out.old).faults (O.shown out.new).faults }
    ensures memory { result ≡ 14 → Rose (O.shown out.old).shortages (O.shown out.new).shortages }
{
    match write_whole(alloc, out, text.as_bytes()) {
        Ok(()) => 0,
        Err(SinkError::Failed) => refuse(alloc, err, &Refusal::OutFault),
        Err(SinkError::NoMemory) => refuse(alloc, err, &Refusal::NoMemory),
    }
}

/// Says why no command was run, and gives the exit status.
fn refuse_setup<E: Sink>(alloc: Global, error: SetupError, err: &mut E) -> u8
    ensures usage { error ≡ SetupError.Usage → result ≡ exit_status_of Refusal.Usage }
    ensures fault { error ≡ SetupError.DirFault → result ≡ exit_status_of Refusal.DirFault }
    ensures memory { error ≡ SetupError.NoMemory → result ≡ exit_status_of Refusal.NoMemory }
{
    match error {
        SetupError::Usage => refuse(alloc, err, &Refusal::Usage),
        SetupError::DirFault => refuse(alloc, err, &Refusal::DirFault),
        SetupError::NoMemory => refuse(alloc, err, &Refusal::NoMemory),
    }
}

/// The path of the file or of the bundle that the words name. Empty where they name none.
fn path_of(alloc: Global, words: &[String]) -> Result<String, SetupError> {
    match read_line(alloc, words) {
        Ok(line) => Ok(match named_path(&line) {
            Some(path) => String::from_str(alloc, path)?,
            None => String::new(alloc),
        }),
        Err(WordsError::Usage(_)) => Ok(String::new(alloc)),
        Err(WordsError::NoMemory) => Err(SetupError::NoMemory),
    }
}

/// Runs the command. The data folder is made even where a word can't be read.
fn run<O: Sink, E: Sink>(
    rt: &HostRuntime,
    words: Result<Vec<String>, SetupError>,
    out: &mut O,
    err: &mut E,
) -> Result<u8, SetupError> {
    let Outside { now, draw, mut dir } = assemble(rt, process::id(rt.process()))?;
    let words = words?;
    let mut bundle = HostBundle::new(rt, path_of(rt.alloc(), words.as_slice())?);
    let mut spawner = HostSpawner::new(rt.alloc(), rt, find_root(rt)?);
    let mut listener = HostListener::new(rt);
    Ok(rkt(
        rt.alloc(),
        words.as_slice(),
        now,
        &draw,
        &mut dir,
        &mut bundle,
        &mut spawner,
        &mut listener,
        out,
        err,
    ))
}

fn main(rt: HostRuntime) -> ExitCode {
    let alloc = rt.alloc();
    let mut out = HostSink::new(rt.stdout());
    let mut err = HostSink::new(rt.stderr());
    let words = read_words(&rt);
    let alone = match &words {
        Ok(words) => text_alone(words.as_slice()),
        Err(_) => None,
    };
    let status = match alone {
        Some(text) => print_alone(alloc, text, &mut out, &mut err),
        None => match run(&rt, words, &mut out, &mut err) {
            Ok(status) => status,
            Err(error) => refuse_setup(alloc, error, &mut err),
        },
    };
    ExitCode::from(status)
}
