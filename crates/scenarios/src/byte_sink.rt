// A sink that takes one byte of each piece, until a write that is to fail.
ghost use Rattle.std.specs.Prelude.{◌≡◌};

use dir_trait::{Sink, SinkError};
use std::alloc::Global;

/// The bytes that came, how many writes failed and were refused by memory, how many there were, and the
/// number of the one that fails, or 0.
#[derive(Drop)]
pub struct ByteSink {
    pub bytes: Vec<u8>,
    faults: u64,
    shortages: u64,
    writes: u64,
    failing: u64,
}

impl ByteSink {
    /// The write with that number fails; none does where it is 0.
    pub fn new(alloc: Global, failing: u64) -> ByteSink {
        ByteSink {
            bytes: Vec::new(alloc),
            faults: 0,
            shortages: 0,
            writes: 0,
            failing,
        }
    }
}

impl Sink for ByteSink {
    ghost use Rattle.std.specs.Prelude.{true};

    ghost observed = { true };

    ghost shown = { λ s. record { bytes = s.bytes.items; faults = s.faults; shortages = s.shortages } };

    fn faults(&self) -> u64 {
        self.faults
    }

    fn write(&mut self, _alloc: Global, piece: &[u8]) -> Result<usize, SinkError> {
        self.writes = self.writes.saturating_add(1);
        if self.writes == self.failing {
            self.faults = self.faults.saturating_add(1);
            return Err(SinkError::Failed);
        }
        match piece {
            [] => Ok(0),
            [first, ..] => match self.bytes.push(*first) {
                Ok(()) => Ok(1),
                Err(_) => {
                    self.shortages = self.shortages.saturating_add(1);
                    Err(SinkError::NoMemory)
                }
            },
        }
    }
}
