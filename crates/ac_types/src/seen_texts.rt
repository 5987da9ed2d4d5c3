//! The texts that came before, as an ordered set.
ghost use Rattle.std.specs.Prelude.{◌≡◌, ◌++◌, ◌∷◌, [], ℕ, List, not, IfOk, OnOk};
ghost use Rattle.ac_types.specs.SeenTexts.{HasSeen, is_among};

use crate::memory::NoMemory;
use std::alloc::Global;
use std::collections::BTreeSet;

/// The texts that came before, for readers that refuse one which comes twice.
#[derive(Drop)]
pub struct SeenTexts {
    texts: BTreeSet<String>,
}

impl SeenTexts {
    pub fn new(alloc: Global) -> SeenTexts
        ensures { HasSeen result [] }
    {
        SeenTexts {
            texts: BTreeSet::new(alloc),
        }
    }

    /// Takes the text in, and answers whether it is new.
    pub fn add(&mut self, alloc: Global, text: &str) -> Result<bool, NoMemory>
        ensures new { IfOk result (λ new. (texts : List (List ℕ)) → HasSeen self.old texts → new ≡ not (is_among text.now texts)) }
        ensures seen { OnOk result ((texts : List (List ℕ)) → HasSeen self.old texts → HasSeen self.new (texts ++ text.now ∷ [])) }
    {
        let key = String::from_str(alloc, text)?;
        Ok(self.texts.insert(key)?)
    }
}
