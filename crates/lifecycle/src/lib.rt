//! The pod machine, and what the local rules of all processes imply of every pod.
#![tactic(auto)]

mod grip;
mod laws;
mod machine;
mod one_pod;
mod place;
mod pods;

pub use grip::Grip;
pub use laws::{beginnings, folders, readings, removals, some_execution, transitions};
pub use machine::{PodState, Transition};
pub use one_pod::replay_pod;
pub use pods::{PodEntry, PodMachine, pods_after};
