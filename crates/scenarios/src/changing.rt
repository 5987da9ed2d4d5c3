// A bundle whose files change between two of its reads.
use dir_memory::MemoryBundle;
use dir_trait::{Bundle, BundleError, BundleItems};
use std::alloc::Global;

/// A bundle whose files begin with another byte from the read with that number on, counted from 1; none does
/// where that is 0.
#[derive(Drop)]
pub struct ChangingBundle {
    pub bundle: MemoryBundle,
    pub reads: u64,
    pub changes: u64,
}

impl Bundle for ChangingBundle {
    ghost use Rattle.std.specs.Prelude.{false};
    ghost use Rattle.dir_memory.specs.MemoryBundles.{bundle_of_memory};

    ghost observed = { false };

    ghost shown = { λ b. bundle_of_memory b.bundle };

    fn faults(&self) -> u64 {
        self.bundle.faults()
    }

    fn read(
        &mut self,
        alloc: Global,
        path: &str,
        at: u64,
        room: &mut [u8],
    ) -> Result<usize, BundleError> {
        let read = self.bundle.read(alloc, path, at, room);
        self.reads = self.reads.saturating_add(1);
        if self.changes > 0 && self.reads >= self.changes && !room.is_empty() {
            room[0] = b'#';
        }
        read
    }

    fn read_link(
        &mut self,
        alloc: Global,
        path: &str,
        room: &mut [u8],
    ) -> Result<usize, BundleError> {
        self.bundle.read_link(alloc, path, room)
    }

    fn list(&mut self, alloc: Global, path: &str) -> Result<BundleItems, BundleError> {
        self.bundle.list(alloc, path)
    }
}
