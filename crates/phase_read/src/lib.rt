//! How a pod's phase is read, among the events of other processes.
#![tactic(auto)]

mod found;
mod probe;
mod read;

pub use found::{Found, LookError, look_error};
pub use probe::look;
pub use read::read_phase;
