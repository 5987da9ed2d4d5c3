//! Copies of values of which contracts see what they show.
ghost use Rattle.std.specs.Prelude.{◌≡◌, List, IfOk, map, option_map};

use crate::memory::NoMemory;
use crate::sequence::Sequence;

/// What can be copied while there is memory, and of which contracts see what it shows, as a type
/// that holds JSON.
pub trait ShownCopy: Drop {
    ghost Shown: { Type 0 };

    ghost shown: { Self → Shown };

    /// A value that shows the same.
    fn copy(&self) -> Result<Self, NoMemory>
        ensures { IfOk result (λ copy. shown copy ≡ shown self.now) };
}

impl<T: ShownCopy> ShownCopy for Sequence<T> {
    ghost use Rattle.std.specs.Prelude.{List, map};

    ghost Shown = { List T.Shown };

    ghost shown = { map T.shown };

    fn copy(&self) -> Result<Sequence<T>, NoMemory> {
        let mut copies = self.emptied();
        for item in self.as_slice() {
            copies = copies.push(item.copy()?)?;
        }
        Ok(copies)
    }
}

impl<T: ShownCopy> ShownCopy for Option<T> {
    ghost use Rattle.std.specs.Prelude.{Option, option_map};

    ghost Shown = { Option T.Shown };

    ghost shown = { option_map T.shown };

    fn copy(&self) -> Result<Option<T>, NoMemory> {
        match self {
            Some(value) => Ok(Some(value.copy()?)),
            None => Ok(None),
        }
    }
}
