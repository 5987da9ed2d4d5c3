//! A spawner in memory: no program runs, and what was asked for can be read.
#![tactic(auto)]

mod ends;
mod memory;
mod starts;

pub use memory::MemorySpawner;
