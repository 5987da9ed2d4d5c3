//! What reads and listings tell of images, while a process has the lock of their area shared.
#![tactic(auto)]

mod laws;

pub use laws::{areas, files, listings};
