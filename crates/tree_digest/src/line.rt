//! A line of a listing.

ghost use Rattle.std.specs.Prelude.{◌≡◌, ◌<◌, length, IfOk};
ghost use Rattle.tree_digest.specs.Lines.{line_text, mode_of};

use crate::write_line::write_line;
use ac_types::{NoMemory, TryCopy};
use path_map::{AbsPath, Entry};
use std::alloc::Global;

/// A line of a listing: a path and what stands there.
#[derive(Drop)]
pub struct ListingLine {
    pub path: AbsPath,
    pub entry: Entry,
}

impl ListingLine {
    /// How many bytes its line takes in a listing's text, with the line end.
    pub fn text_len(&self, alloc: Global) -> Result<usize, NoMemory>
        requires { mode_of self.now.entry < 4096 }
        ensures { IfOk result (λ bytes. bytes ≡ length (line_text self.now)) }
    {
        let mut text = Vec::new(alloc);
        write_line(alloc, &mut text, self)?;
        Ok(text.len())
    }

    /// An equal line.
    pub fn copy(&self) -> Result<ListingLine, NoMemory>
        ensures { IfOk result (λ copy. copy ≡ self.now) }
    {
        Ok(ListingLine {
            path: self.path.copy()?,
            entry: self.entry.copy()?,
        })
    }
}

impl TryCopy for ListingLine {
    fn try_copy(&self) -> Result<ListingLine, NoMemory> {
        self.copy()
    }
}
