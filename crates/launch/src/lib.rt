//! With what an app's programs start: their paths and words, their environment and their working directory.
#![tactic(auto)]

mod environment;
mod error;
mod last_values;
mod launch;
mod program;
mod words;

pub use error::LaunchError;
pub use launch::{AppLaunch, app_launch};
