//! Copies while there is memory.
ghost use Rattle.std.specs.Prelude.{◌≡◌, IfOk};

use crate::memory::NoMemory;

/// What can be copied while there is memory.
pub trait TryCopy: Drop {
    /// An equal value.
    fn try_copy(&self) -> Result<Self, NoMemory>
        ensures { IfOk result (λ copy. copy ≡ self.now) };
}

impl TryCopy for u8 {
    fn try_copy(&self) -> Result<u8, NoMemory> {
        Ok(*self)
    }
}

impl TryCopy for u32 {
    fn try_copy(&self) -> Result<u32, NoMemory> {
        Ok(*self)
    }
}

impl TryCopy for usize {
    fn try_copy(&self) -> Result<usize, NoMemory> {
        Ok(*self)
    }
}

impl<T: TryCopy> TryCopy for Option<T> {
    fn try_copy(&self) -> Result<Option<T>, NoMemory> {
        match self {
            Some(value) => Ok(Some(value.try_copy()?)),
            None => Ok(None),
        }
    }
}
