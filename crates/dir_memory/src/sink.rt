// A sink in memory.
ghost use Rattle.std.specs.Prelude.{◌≡◌, ◌+◌, ◌==◌};
ghost use Rattle.std.specs.List.{list_any};

use crate::planned::is_listed;
use dir_model::NoMemory;
use dir_trait::{Sink, SinkError};
use std::alloc::Global;
use std::marker::Model;

/// A sink that keeps its bytes. Only writes that were listed so fail.
#[derive(Drop)]
pub struct MemorySink {
    bytes: Vec<u8>,
    faults: u64,
    shortages: u64,
    writes: u64,
    failing: Vec<u64>,
}

impl Model for MemorySink {
    ghost use Rattle.dir_memory.specs.MemorySinks.{SinkMemory};

    ghost Value = { SinkMemory };

    ghost view = { λ s. record { bytes = s.bytes.items; faults = s.faults; shortages = s.shortages; writes = s.writes; failing = s.failing.items } };
}

impl MemorySink {
    ghost use Rattle.std.specs.Prelude.{◌≡◌, ◌<◌, ◌++◌, ◌∷◌, [], IfOk};
    ghost use Rattle.dir_memory.specs.MemorySinks.{SinkMemory};

    /// Nothing was written, and no write is to fail. Takes no memory.
    pub fn new(alloc: Global) -> MemorySink
        ensures { result ≡ record { bytes = []; faults = 0; shortages = 0; writes = 0; failing = [] } }
    {
        MemorySink {
            bytes: Vec::new(alloc),
            faults: 0,
            shortages: 0,
            writes: 0,
            failing: Vec::new(alloc),
        }
    }

    /// All that was written.
    pub fn bytes(&self) -> &[u8]
        ensures { result.now ≡ self.now.bytes }
    {
        self.bytes.as_slice()
    }

    /// The write with that number, counted from 1, fails. Refused only where memory ran out.
    pub fn fail(self, alloc: Global, call: u64) -> Result<MemorySink, NoMemory>
        ensures { IfOk result (λ s. s ≡ record self { failing = self.failing ++ call ∷ [] }) }
    {
        let _alloc = alloc;
        let mut sink = self;
        sink.failing.push(call)?;
        Ok(sink)
    }
}

impl Sink for MemorySink {
    ghost use Rattle.std.specs.Prelude.{◌≡◌, ◌<◌, ◌≤◌, ◌++◌, true, length, take, IfOk, IfErr, IsErrOf};
    ghost use Rattle.dir_model.specs.Causes.{Rose};
    ghost use Rattle.dir_memory.specs.MemorySinks.{SinkMemoryWrites, sink_of_memory};

    ghost observed = { true };

    ghost shown = { λ s. sink_of_memory s };

    fn faults(&self) -> u64 {
        self.faults
    }

    fn write(&mut self, _alloc: Global, piece: &[u8]) -> Result<usize, SinkError>
        ensures faults { self.old.faults ≤ self.new.faults }
        ensures shortages { self.old.shortages ≤ self.new.shortages }
        ensures cause { IsErrOf result SinkError.Failed → Rose self.old.faults self.new.faults }
        ensures shortage { IsErrOf result SinkError.NoMemory → Rose self.old.shortages self.new.shortages }
        ensures most { IfOk result (λ n. n ≤ length piece.now) }
        ensures some { IfOk result (λ n. 0 < length piece.now → 0 < n) }
        ensures written { IfOk result (λ n. true ≡ true → self.new.bytes ≡ self.old.bytes ++ take n piece.now) }
        ensures unwritten { IfErr result (λ e. true ≡ true → self.new.bytes ≡ self.old.bytes) }
        ensures writes { SinkMemoryWrites self.old piece.now result self.new }
    {
        let fails = is_listed(&self.failing, self.writes);
        self.writes = self.writes.saturating_add(1);
        if fails {
            self.faults = self.faults.saturating_add(1);
            return Err(SinkError::Failed);
        }
        let Ok(()) = self.bytes.extend_from_slice(piece) else {
            self.shortages = self.shortages.saturating_add(1);
            return Err(SinkError::NoMemory);
        };
        Ok(piece.len())
    }
}
