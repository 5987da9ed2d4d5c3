// Events: what processes asked of the directory, and what they were answered.
ghost use Rattle.std.specs.Prelude.{◌≡◌, IfOk};

use crate::memory::NoMemory;
use crate::request::{Reply, Request};

/// One atomic operation of a process on the directory, and what it was answered.
#[derive(Drop)]
pub struct Event {
    pub process: u32,
    pub request: Request,
    pub reply: Reply,
}

impl Event {
    /// An equal event. Refused only where memory ran out.
    pub fn copy(&self) -> Result<Event, NoMemory>
        ensures { IfOk result (λ copy. copy ≡ self.now) }
    {
        Ok(Event {
            process: self.process,
            request: self.request.copy()?,
            reply: self.reply.copy()?,
        })
    }
}
