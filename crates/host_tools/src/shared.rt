// What several tools need: what a process says when it begins, its input, and errors.
use anyhow::{Result, anyhow};
use dir_host::SetupError;
use dir_trait::{Draw, Intent, Kind, NoMemory, PodPrefix};

/// What this process says when it begins.
pub fn intent(kind: Kind, now: u64, draw: &Draw) -> Intent {
    Intent {
        kind,
        word: PodPrefix::empty(),
        now,
        grace: 0,
        expire: 0,
        draw: draw.uuid,
        token: draw.token,
    }
}

/// The lines of the standard input up to a line `then`, which parts them from another tool's, or up to its end.
pub fn read_part(rt: &HostRuntime) -> Result<String> {
    let mut text = String::new(rt.alloc());
    'lines: for line in rt.lines(rt.alloc()) {
        let line = line?;
        if line.as_str() == "then" {
            break;
        }
        text.push_str(line.as_str())?;
        text.push('\n')?;
    }
    Ok(text)
}

/// What is told where words or a data folder can't be had.
pub fn setup_fault(_error: SetupError) -> anyhow::Error {
    anyhow!("no data folder")
}

/// What is told where memory ran out.
pub fn out_of_memory(_error: NoMemory) -> anyhow::Error {
    anyhow!("out of memory")
}
