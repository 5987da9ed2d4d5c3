// Starts programs in the root of an app: a tool by which the spawner of a host is tested. Its words are the
// pod's uuid and the app's name, and its part of the standard input is what to do, whose lines
// tests/host/spawn.sh has.

use crate::shared::{read_part, setup_fault};
use crate::spawn_steps::{Plan, run_lines};
use anyhow::{Result, anyhow};
use dir_host::{HostDir, find_root};
use dir_trait::{Area, FileName, PodId, Spot};
use host_spawner::HostSpawner;
use spawner::{RootPlace, Spawner};
use std::process;

/// The root of an app of a pod in run.
fn place_of(pod: &str, app: &str) -> Result<RootPlace> {
    let pod = PodId::parse(pod).ok_or(anyhow!("no uuid"))?;
    let app = FileName::of(app).ok_or(anyhow!("no app"))?;
    Ok(RootPlace {
        spot: Spot {
            area: Area::Run,
            name: pod.name(),
        },
        app,
    })
}

/// Does what the standard input says.
fn spawn(rt: &HostRuntime, pod: &str, app: &str) -> Result<()> {
    let root = place_of(pod, app)?;
    let base = find_root(rt).map_err(setup_fault)?;
    let text = read_part(rt)?;
    let dir = HostDir::new(rt.alloc(), rt, base.clone()?, process::id(rt.process()));
    let mut spawner = HostSpawner::new(rt.alloc(), rt, base);
    let plan = Plan::new(rt.alloc())?;
    run_lines(rt, &dir, &mut spawner, &root, plan, text.as_str())?;
    println!(rt; "faults {}", spawner.faults())?;
    Ok(())
}

/// Starts programs in the root of the app that the words name.
pub fn run(rt: &HostRuntime, words: &[String]) -> Result<()> {
    match words {
        [pod, app] => spawn(rt, pod.as_str(), app.as_str()),
        _ => Err(anyhow!("the words are a pod and an app")),
    }
}
