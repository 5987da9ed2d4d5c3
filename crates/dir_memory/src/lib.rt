//! The outside in memory: a data folder whose trace can be read, a bundle of what was put into it, and
//! a sink that keeps its bytes.
#![tactic(auto)]

mod bundle;
mod dir;
mod entry;
mod listing;
mod local;
mod memory;
mod path_call;
mod planned;
mod sink;
mod step;

pub use bundle::MemoryBundle;
pub use memory::MemoryDir;
pub use sink::MemorySink;
