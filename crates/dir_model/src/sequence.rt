// Lists in public types.
ghost use Rattle.std.specs.Prelude.{◌≡◌, List, IfOk};

use crate::item::Item;
use crate::memory::NoMemory;
use crate::name::Name;
use std::alloc::Global;
use std::marker::Model;

/// A list. Contracts see its elements.
#[derive(Drop)]
pub struct Sequence<T> {
    items: Vec<T>,
}

/// A list of bytes.
pub type Bytes = Sequence<u8>;

/// The names of folders in an area.
pub type Names = Sequence<Name>;

/// What stands in a directory of a folder.
pub type Items = Sequence<Item>;

impl<T> Model for Sequence<T> {
    ghost Value = { List T };

    ghost view = { λ s. s.items.items };
}

impl<T> Sequence<T> {
    /// The elements of a vector. Takes no memory.
    pub fn from_vec(items: Vec<T>) -> Sequence<T>
        ensures { result ≡ items.items }
    {
        Sequence { items }
    }

    /// The elements as a vector. Takes no memory.
    pub fn into_vec(self) -> Vec<T>
        ensures { result.items ≡ self }
    {
        self.items
    }
}

impl<T: Copy> Sequence<T> {
    /// The elements of a slice. Refused only where memory ran out.
    pub fn of(alloc: Global, slice: &[T]) -> Result<Sequence<T>, NoMemory>
        ensures { IfOk result (λ list. list ≡ slice.now) }
    {
        let items = Vec::from_slice(alloc, slice)?;
        Ok(Sequence { items })
    }

    /// An equal list. Refused only where memory ran out.
    pub fn copy(&self) -> Result<Sequence<T>, NoMemory>
        ensures { IfOk result (λ list. list ≡ self.now) }
    {
        Sequence::of(*self.items.allocator(), self.items.as_slice())
    }

    /// The elements.
    pub fn as_slice(&self) -> &[T]
        ensures { result.now ≡ self.now }
    {
        self.items.as_slice()
    }
}
