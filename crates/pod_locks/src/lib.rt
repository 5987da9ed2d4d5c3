//! The locks of a pod: what a process holds that has a pod in run; how a prepared pod is claimed under both
//! locks; and the single steps of a process that removes pods, among the events of other processes.
#![tactic(auto)]

mod attempt;
mod claim_error;
mod claim_setback;
mod claiming;
mod locks;
mod owned;
mod setback;
mod steps;

pub use claim_error::ClaimError;
pub use claiming::claim;
pub use owned::Owned;
pub use setback::{Setback, delete_setback, look_setback, set_back};
pub use steps::{probe, put_aside, take};
