//! Image IDs.
ghost use Rattle.std.specs.Prelude.{◌≡◌, ◌≢◌, ℕ, List, Some, None, IfOk, IfErr, MatchResult, codes};
ghost use Rattle.ac_types.specs.Ids.{id_text, id_read, AreBytes};

use crate::hex_digits::{read_id, write_id};
use crate::memory::NoMemory;
use crate::text::Text;
use std::alloc::Global;
use std::error::Error;
use std::fmt;

/// The ID of an image: a SHA-512 sum.
#[derive(Clone, Copy, Debug, PartialEq, Eq)]
pub struct ImageId {
    pub bytes: [u8; 64],
}

/// The text is no image ID.
#[derive(Clone, Copy, Debug, PartialEq, Eq)]
pub struct BadId;

impl fmt::Display for BadId {
    ghost output = { λ _. Some (codes "bad image ID") };

    fn fmt<W: fmt::Write>(&self, f: &mut fmt::Formatter<W>) -> fmt::Result {
        write!(f, "bad image ID")
    }
}

impl Error for BadId {}

impl ImageId {
    /// The ID whose text this is: `sha512-` and 128 lower-case hex digits. Takes no memory.
    pub fn parse(text: &str) -> Result<ImageId, BadId>
        ensures reads { MatchResult result (λ id. id_read 64 text.now ≡ Some id.bytes) (λ _. id_read 64 text.now ≡ None) }
        ensures text { IfOk result (λ id. text.now ≡ id_text id.bytes) }
        ensures kind { IfOk result (λ id. AreBytes 64 id.bytes) }
        ensures refused { IfErr result (λ _. (bytes : List ℕ) → AreBytes 64 bytes → text.now ≢ id_text bytes) }
    {
        let mut bytes = [0; 64];
        if !read_id(text, &mut bytes) {
            return Err(BadId);
        }
        Ok(ImageId { bytes })
    }

    /// The ID's text: `sha512-` and the 128 lower-case hex digits of its bytes.
    pub fn text(self, alloc: Global) -> Result<Text, NoMemory>
        ensures { IfOk result (λ text. text ≡ id_text self.bytes) }
    {
        write_id(alloc, &self.bytes)
    }
}
