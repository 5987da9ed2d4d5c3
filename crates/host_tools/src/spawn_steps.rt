// What to do, a line each: `l FILE` makes the links and modes of a listing, `w WORD` adds a word, `e TEXT` a
// variable, `c PATH` is the working directory, `s` starts the program, and `x N` waits for a child.
use crate::shared::out_of_memory;
use anyhow::{Result, anyhow};
use dir_host::HostDir;
use host_spawner::HostSpawner;
use spawner::{Child, RootPlace, SpawnError, Spawner, Words};
use std::alloc::Global;
use std::fs::File;
use std::io;

/// What the next program is started with.
#[derive(Drop)]
pub struct Plan {
    argv: Words,
    env: Words,
    cwd: String,
}

impl Plan {
    /// No words, no variables, and the root itself.
    pub fn new(alloc: Global) -> Result<Plan> {
        Ok(Plan {
            argv: Words::new(alloc),
            env: Words::new(alloc),
            cwd: String::from_str(alloc, "/")?,
        })
    }

    fn with_word(self, alloc: Global, word: &str) -> Result<Plan> {
        Ok(Plan {
            argv: self.argv.push(alloc, word).map_err(out_of_memory)?,
            env: self.env,
            cwd: self.cwd,
        })
    }

    fn with_variable(self, alloc: Global, text: &str) -> Result<Plan> {
        Ok(Plan {
            argv: self.argv,
            env: self.env.push(alloc, text).map_err(out_of_memory)?,
            cwd: self.cwd,
        })
    }

    fn with_directory(self, alloc: Global, path: &str) -> Result<Plan> {
        Ok(Plan {
            argv: self.argv,
            env: self.env,
            cwd: String::from_str(alloc, path)?,
        })
    }
}

fn name_of(error: SpawnError) -> &'static str {
    match error {
        SpawnError::Failed => "failed",
        SpawnError::NoMemory => "out of memory",
    }
}

fn make_ready(
    rt: &HostRuntime,
    dir: &HostDir<&HostRuntime>,
    spawner: &mut HostSpawner<&HostRuntime>,
    root: &RootPlace,
    path: &str,
) -> Result<()> {
    let text = io::read_to_string(rt.alloc(), File::open(rt, path)?)?;
    match spawner.ready(rt.alloc(), dir, root, text.as_str().as_bytes()) {
        Ok(()) => println!(rt; "ready")?,
        Err(error) => println!(rt; "{}", name_of(error))?,
    }
    Ok(())
}

fn start(
    rt: &HostRuntime,
    dir: &HostDir<&HostRuntime>,
    spawner: &mut HostSpawner<&HostRuntime>,
    root: &RootPlace,
    plan: &Plan,
) -> Result<()> {
    let started = spawner.start(
        rt.alloc(),
        dir,
        root,
        &plan.argv,
        &plan.env,
        plan.cwd.as_str(),
    );
    match started {
        Ok(child) => println!(rt; "started {}", child.number)?,
        Err(error) => println!(rt; "{}", name_of(error))?,
    }
    Ok(())
}

fn wait(
    rt: &HostRuntime,
    dir: &HostDir<&HostRuntime>,
    spawner: &mut HostSpawner<&HostRuntime>,
    number: &str,
) -> Result<()> {
    let Ok(number) = number.parse::<u32>() else {
        return Err(anyhow!("no number"));
    };
    match spawner.wait(rt.alloc(), dir, Child { number }) {
        Ok(status) => println!(rt; "ended {status}")?,
        Err(error) => println!(rt; "{}", name_of(error))?,
    }
    Ok(())
}

fn run_line(
    rt: &HostRuntime,
    dir: &HostDir<&HostRuntime>,
    spawner: &mut HostSpawner<&HostRuntime>,
    root: &RootPlace,
    plan: Plan,
    line: &str,
) -> Result<Plan> {
    match line.split_once(' ') {
        Some(("l", path)) => make_ready(rt, dir, spawner, root, path)?,
        Some(("w", word)) => return plan.with_word(rt.alloc(), word),
        Some(("e", text)) => return plan.with_variable(rt.alloc(), text),
        Some(("c", path)) => return plan.with_directory(rt.alloc(), path),
        Some(("x", number)) => wait(rt, dir, spawner, number)?,
        Some(_) => return Err(anyhow!("no such line")),
        None => start(rt, dir, spawner, root, &plan)?,
    }
    Ok(plan)
}

/// Does what each line says.
pub fn run_lines(
    rt: &HostRuntime,
    dir: &HostDir<&HostRuntime>,
    spawner: &mut HostSpawner<&HostRuntime>,
    root: &RootPlace,
    plan: Plan,
    text: &str,
) -> Result<()> {
    let mut plan = plan;
    'lines: for line in text.lines() {
        plan = run_line(rt, dir, spawner, root, plan, line)?;
    }
    Ok(())
}
