//! Plays a script of histories over the data folder in memory, and prints it again with what really came:
//! what the local rules let a process ask for, lives of pods, and calls on the folder among the steps of
//! others.
#![tactic(auto)]

mod asked;
mod calls;
mod definitions;
mod life;
mod meeting;
mod performed;
mod played;
mod steps;
mod told;
mod walk;

pub use played::Histories;
