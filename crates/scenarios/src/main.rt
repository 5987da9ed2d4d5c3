//! Plays two scripts in one, and prints each line again with what really came. A line `script scenarios` or
//! `script histories` says of which the lines below it are: commands of many processes on the data folder, the
//! bundles, the programs and the connections in memory, among the steps of others; or what single processes ask
//! of the data folder. A script that says what comes is its own expectation.
#![tactic(auto)]

mod before;
mod bundles;
mod byte_sink;
mod callers;
mod changing;
mod chosen;
mod every;
mod plan;
mod printed;
mod run;
mod seen;
mod stage;
mod world;

use crate::chosen::Scripts;
use scripts::play_all;
use std::process::ExitCode;

fn main(rt: HostRuntime) -> ExitCode {
    let mut scripts = Scripts::new(rt.alloc());
    play_all(&rt, &mut scripts)
}
