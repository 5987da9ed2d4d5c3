//! What starts the programs of apps: the trait, what it is asked for, and when it may be asked.
#![tactic(auto)]

mod call;
mod spawning;
mod words;
mod working_directory;

pub use call::{Child, RootPlace, SpawnCall, SpawnError, SpawnReply, SpawnRequest};
pub use spawning::Spawner;
pub use words::Words;
pub use working_directory::WorkingDirectory;
