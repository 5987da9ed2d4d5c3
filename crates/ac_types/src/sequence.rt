//! A list that contracts see as its elements.
ghost use Rattle.std.specs.Prelude.{◌≡◌, List, [], ◌++◌, ◌∷◌, IfOk, length, nat_eq};

use crate::memory::NoMemory;
use crate::text::Text;
use crate::try_copy::TryCopy;
use std::alloc::Global;
use std::marker::Model;

/// A list. Contracts see its elements.
#[derive(Drop)]
pub struct Sequence<T> {
    items: Vec<T>,
}

/// A list of texts. Contracts see a list of lists of bytes.
pub type Texts = Sequence<Text>;

impl<T> Model for Sequence<T> {
    ghost Value = { List T };

    ghost view = { λ s. s.items.items };
}

impl<T> Sequence<T> {
    pub fn new(alloc: Global) -> Sequence<T>
        ensures { result ≡ [] }
    {
        Sequence {
            items: Vec::new(alloc),
        }
    }

    /// The elements of a vector, which is kept. Takes no memory.
    pub fn from_vec(items: Vec<T>) -> Sequence<T>
        ensures { result ≡ items.items }
    {
        Sequence { items }
    }

    /// The vector of the elements. Takes no memory.
    pub fn into_vec(self) -> Vec<T>
        ensures { result.items ≡ self }
    {
        self.items
    }

    pub fn as_slice(&self) -> &[T]
        ensures { result.now ≡ self.now }
    {
        self.items.as_slice()
    }

    /// How many elements there are.
    pub fn len(&self) -> usize
        ensures { result ≡ length self.now }
    {
        self.items.len()
    }

    pub fn is_empty(&self) -> bool
        ensures { result ≡ nat_eq (length self.now) 0 }
    {
        self.items.is_empty()
    }

    /// The empty list in the same memory.
    pub(crate) fn emptied(&self) -> Sequence<T>
        ensures { result ≡ [] }
    {
        Sequence::new(*self.items.allocator())
    }
}

impl<T: Drop> Sequence<T> {
    /// The list with one element more at its end.
    pub fn push(self, item: T) -> Result<Sequence<T>, NoMemory>
        ensures { IfOk result (λ s. s ≡ self ++ item ∷ []) }
    {
        let mut items = self.items;
        items.push(item)?;
        Ok(Sequence { items })
    }
}

impl<T: TryCopy> Sequence<T> {
    /// The elements of a slice.
    pub fn of(alloc: Global, slice: &[T]) -> Result<Sequence<T>, NoMemory>
        ensures { IfOk result (λ s. s ≡ slice.now) }
    {
        let mut items = Vec::with_capacity(alloc, slice.len())?;
        for item in slice {
            items.push(item.try_copy()?)?;
        }
        Ok(Sequence { items })
    }

    /// An equal list.
    pub fn copy(&self) -> Result<Sequence<T>, NoMemory>
        ensures { IfOk result (λ s. s ≡ self.now) }
    {
        Sequence::of(*self.items.allocator(), self.items.as_slice())
    }
}

impl<T: TryCopy> TryCopy for Sequence<T> {
    fn try_copy(&self) -> Result<Sequence<T>, NoMemory> {
        self.copy()
    }
}

impl<T: PartialEq> PartialEq for Sequence<T> {
    ghost use Rattle.std.specs.Cmp.Lexicographic.{lists_per};
    ghost use lib.Pointwise.{pointwise};

    ghost eq = { pointwise T.eq };

    ghost laws = { lists_per T.PartialEq.laws };

    fn eq(&self, other: &Sequence<T>) -> bool {
        self.as_slice() == other.as_slice()
    }
}

impl<T: Eq> Eq for Sequence<T> {
    ghost use Rattle.std.proofs.lemmas.Cmp.{lists_equiv};

    ghost laws = { lists_equiv T.Eq.laws };
}
