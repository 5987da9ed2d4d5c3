//! Runs the apps of a pod: reads from the pod's files what they start with, every program found before any is
//! started; starts them, waits for them, and notes how each ended.
#![tactic(auto)]

mod beginning;
mod end;
mod ending;
mod error;
mod launches;
mod load_error;
mod manifest;
mod notes;
mod part;
mod programs;
mod resolving;
mod root;
mod run_place;
mod running;
mod stand;
mod start;
mod token;

pub use end::AppEnd;
pub use error::RunError;
pub use launches::pod_launches;
pub use load_error::LoadError;
pub use running::run_pod;
pub use start::AppStart;
