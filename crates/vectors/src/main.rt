//! Plays three scripts in one, and prints each line again with what really came. A line `script vectors`,
//! `script buildings` or `script pods` says of which the lines below it are: single calls of the libraries of
//! names, manifests, paths, trees, bundles and command lines; plans that are carried out in the data folder in
//! memory; or single calls on images, pods and apps. A script that says what comes is its own expectation.
#![tactic(auto)]

mod answers;
mod asked_pods;
mod bundles;
mod chosen;
mod command_lines;
mod command_words;
mod documents;
mod fields;
mod listings;
mod maps;
mod names;
mod parts;
mod paths;
mod phases;
mod played;
mod sections;
mod sequences;
mod wide;

use crate::chosen::Scripts;
use scripts::play_all;
use std::process::ExitCode;

fn main(rt: HostRuntime) -> ExitCode {
    let mut scripts = Scripts::new(rt.alloc());
    play_all(&rt, &mut scripts)
}
