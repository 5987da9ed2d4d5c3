// How an app ended.
ghost use Rattle.std.specs.Prelude.{◌≡◌, IfOk};

use ac_types::{AcName, memory};

/// An app, and the status with which it ended.
#[derive(Drop)]
pub struct AppEnd {
    pub app: AcName,
    pub status: u8,
}

impl AppEnd {
    /// An equal end. `NoMemory` where memory ran out.
    pub fn copy(&self) -> Result<AppEnd, memory::NoMemory>
        ensures { IfOk result (λ copy. copy ≡ self.now) }
    {
        Ok(AppEnd {
            app: self.app.copy()?,
            status: self.status,
        })
    }
}
