//! Plays a script of plans that are carried out in the data folder in memory, and prints it again with what
//! really came: what stands then, where calls fail, processes are killed and files differ.
#![tactic(auto)]

mod imports;
mod played;
mod prepares;
mod rows;
mod stage;
mod stands;
mod steps;
mod sweeps;
mod trees;

pub use played::Buildings;
