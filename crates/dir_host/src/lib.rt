//! The outside on a host: the shared data folder, bundles of files, the streams that a command writes
//! to, and what a program is given when it starts.
#![tactic(auto)]

mod bundle;
mod dir;
mod locks;
mod open_folders;
mod outside;
mod setup;
mod sink;

pub use bundle::HostBundle;
pub use dir::HostDir;
pub use outside::{Outside, assemble};
pub use setup::{SetupError, find_root, read_words};
pub use sink::HostSink;
