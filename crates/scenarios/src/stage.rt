// What a scenario has come to: the data folder, the bundle, and what the next command meets.
use crate::bundles::Put;
use crate::plan::Plan;
use dir_memory::MemoryDir;
use dir_trait::NoMemory;
use std::alloc::Global;

/// The data folder in memory, what is put into the bundle of each command, what the next command meets, and
/// the number of the next process that runs one.
#[derive(Drop)]
pub struct Stage {
    pub dir: Option<MemoryDir>,
    pub puts: Vec<Put>,
    pub plan: Plan,
    pub next: u32,
}

impl Stage {
    /// An empty data folder and an empty bundle. Refused only where memory ran out.
    pub fn new(alloc: Global) -> Result<Stage, NoMemory> {
        let dir = MemoryDir::new(alloc, 0)?;
        Ok(Stage {
            dir: Some(dir),
            puts: Vec::new(alloc),
            plan: Plan::new(alloc),
            next: 1,
        })
    }
}
