//! Tools by which what runs on a host is tested and timed. The first word says which: `dir` makes calls on the
//! data folder, `build` fills a folder by a plan, `spawn` starts programs in the root of an app, and `measure`
//! shows what trees, listings and renderings cost; the words behind it are the tool's own. Behind a word `then`
//! comes another tool, which runs once the one before it has ended.
#![tactic(auto)]

mod build;
mod build_plan;
mod dir;
mod dir_calls;
mod dir_printed;
mod dir_step;
mod dir_words;
mod measure;
mod measure_entries;
mod measure_rendering;
mod shared;
mod spawn;
mod spawn_steps;

use crate::shared::setup_fault;
use anyhow::{Result, anyhow};
use dir_host::read_words;

/// Runs the tool that the first word names, on the words behind it.
fn run_tool(rt: &HostRuntime, words: &[String]) -> Result<()> {
    let Some((tool, words)) = words.split_first() else {
        return Err(anyhow!("no tool"));
    };
    match tool.as_str() {
        "dir" => dir::run(rt, words),
        "build" => build::run(rt, words),
        "spawn" => spawn::run(rt, words),
        "measure" => measure::run(rt, words),
        _ => Err(anyhow!("no such tool")),
    }
}

fn main(rt: HostRuntime) -> Result<()> {
    let words = read_words(&rt).map_err(setup_fault)?;
    'tools: for words in words.as_slice().split(|word| word.as_str() == "then") {
        run_tool(&rt, words)?;
    }
    Ok(())
}
