// The lines of a walk.
ghost use Rattle.std.specs.Prelude.{◌≡◌, ◌⊎◌, ◌++◌, ◌∷◌, [], ◌<◌, OnOk, IfErr, length};
ghost use Rattle.tree_digest.specs.Lines.{mode_of};
ghost use Rattle.tree_digest.specs.Listings.{IsTooLarge};
ghost use Rattle.bundle_image.specs.Lines.{AreFewLines};

use std::alloc::Global;
use std::marker::Model;
use tree_digest::refusals::{MAX_BYTES, MAX_LINES};
use tree_digest::{ListingError, ListingLine};

/// Lines in the order of a walk, as many and as long as a listing may have. Contracts see them as a list.
#[derive(Drop)]
pub(crate) struct Lines {
    lines: Vec<ListingLine>,
    bytes: usize,
}

impl Model for Lines {
    ghost use Rattle.std.specs.Prelude.{◌≡◌, List, length};
    ghost use Rattle.tree_digest.specs.declared.line.ListingLine.{ListingLine};
    ghost use Rattle.tree_digest.specs.Listings.{listing_text};
    ghost use Rattle.bundle_image.specs.Lines.{AreFewLines};

    ghost Value = { List ListingLine };

    ghost view = { λ l. l.lines.items };

    ghost invariant = { λ l. (l.bytes ≡ length (listing_text l.lines.items)) × AreFewLines l.lines.items };
}

impl Lines {
    /// No line.
    pub(crate) fn new(alloc: Global) -> Lines
        ensures { result ≡ [] }
    {
        Lines {
            lines: Vec::new(alloc),
            bytes: 0,
        }
    }

    /// How many there are.
    pub(crate) fn len(&self) -> usize
        ensures len { result ≡ length self.now }
        ensures few { AreFewLines self.now }
    {
        self.lines.len()
    }

    /// The lines as a vector.
    pub(crate) fn into_vec(self) -> Vec<ListingLine>
        ensures lines { result.items ≡ self }
        ensures few { AreFewLines self }
    {
        self.lines
    }

    /// Adds a line. `TooMany` where there are more than 65,536 with it, or else where their text has more
    /// than 33,554,432 bytes.
    pub(crate) fn push(&mut self, alloc: Global, line: ListingLine) -> Result<(), ListingError>
        requires { mode_of line.entry < 4096 }
        ensures ok { OnOk result (self.new ≡ self.old ++ line ∷ []) }
        ensures few { OnOk result (AreFewLines self.new) }
        ensures fault { IfErr result (λ e. (e ≡ ListingError.NoMemory) ⊎ IsTooLarge (self.old ++ line ∷ []) e) }
    {
        let bytes = line.text_len(alloc)?;
        if self.lines.len() >= MAX_LINES {
            return Err(ListingError::TooMany(MAX_LINES as u64));
        }
        if bytes > MAX_BYTES - self.bytes {
            return Err(ListingError::TooMany(MAX_BYTES as u64));
        }
        if self.lines.push(line).is_err() {
            return Err(ListingError::NoMemory);
        }
        self.bytes += bytes;
        Ok(())
    }
}
