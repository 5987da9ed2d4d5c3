// Lists of texts.
ghost use Rattle.std.specs.Prelude.{◌≡◌, ◌++◌, ◌∷◌, [], length, map, string_bytes, IfOk};
ghost use Rattle.std.specs.List.{slice_get};
ghost use Rattle.std.specs.Option.{option_copied};

use dir_trait::NoMemory;
use std::alloc::Global;
use std::marker::Model;

/// A list of texts, as the words of a command line or the variables of an environment. Contracts see
/// a list of lists of bytes.
#[derive(Drop)]
pub struct Words {
    texts: Vec<String>,
}

impl Model for Words {
    ghost use Rattle.std.specs.Prelude.{ℕ, List, map, string_bytes};

    ghost Value = { List (List ℕ) };

    ghost view = { λ w. map string_bytes w.texts.items };
}

impl Words {
    /// No texts. Takes no memory.
    pub fn new(alloc: Global) -> Words
        ensures { result ≡ [] }
    {
        Words {
            texts: Vec::new(alloc),
        }
    }

    /// The list with one text more, at its end. Refused only where memory ran out.
    pub fn push(self, alloc: Global, text: &str) -> Result<Words, NoMemory>
        ensures { IfOk result (λ words. words ≡ self ++ text.now ∷ []) }
    {
        let text = String::from_str(alloc, text)?;
        let mut texts = self.texts;
        texts.push(text)?;
        Ok(Words { texts })
    }

    /// The text at a place, counted from 0. None past the end.
    pub fn get(&self, place: usize) -> Option<&str>
        ensures { option_copied result ≡ slice_get self.now place }
    {
        match self.texts.get(place) {
            Some(text) => Some(text.as_str()),
            None => None,
        }
    }

    /// The number of texts.
    pub fn len(&self) -> usize
        ensures { result ≡ length self.now }
    {
        self.texts.len()
    }

    /// An equal list. Refused only where memory ran out.
    pub fn copy(&self) -> Result<Words, NoMemory>
        ensures { IfOk result (λ copy. copy ≡ self.now) }
    {
        let mut texts = Vec::new(*self.texts.allocator());
        'texts: for text in &self.texts {
            texts.push(text.clone()?)?;
        }
        Ok(Words { texts })
    }
}
