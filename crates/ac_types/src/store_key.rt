//! Keys of images in a store.
ghost use Rattle.std.specs.Prelude.{◌≡◌, ◌≢◌, ℕ, List, Some, None, IfOk, IfErr, MatchResult, take};
ghost use Rattle.ac_types.specs.Ids.{key_read, id_text, AreBytes, IsKeyText};

use crate::hex_digits::{read_id, write_id};
use crate::image_id::{BadId, ImageId};
use crate::memory::NoMemory;
use crate::text::Text;
use std::alloc::Global;

/// The key of an image in a store: the first half of its ID.
#[derive(Clone, Copy, Debug, PartialEq, Eq, PartialOrd, Ord)]
pub struct StoreKey {
    pub bytes: [u8; 32],
}

impl StoreKey {
    /// The first 64 digits of the ID. Takes no memory.
    pub fn of(id: ImageId) -> StoreKey
        ensures { result.bytes ≡ take 32 id.bytes }
    {
        let mut bytes = [0; 32];
        bytes.copy_from_slice(&id.bytes[..32]);
        StoreKey { bytes }
    }

    /// The key whose text this is: `sha512-` and its 64 lower-case hex digits, or the 128 of an
    /// image ID that begins with them. Takes no memory.
    pub fn parse(text: &str) -> Result<StoreKey, BadId>
        ensures reads { MatchResult result (λ key. key_read text.now ≡ Some key.bytes) (λ _. key_read text.now ≡ None) }
        ensures text { IfOk result (λ key. IsKeyText key.bytes text.now) }
        ensures refused { IfErr result (λ _. (bytes : List ℕ) → AreBytes 32 bytes → ¬ IsKeyText bytes text.now) }
    {
        if let Ok(id) = ImageId::parse(text) {
            return Ok(StoreKey::of(id));
        }
        let mut bytes = [0; 32];
        if !read_id(text, &mut bytes) {
            return Err(BadId);
        }
        Ok(StoreKey { bytes })
    }

    /// The key's text: `sha512-` and the 64 lower-case hex digits of its bytes.
    pub fn text(self, alloc: Global) -> Result<Text, NoMemory>
        ensures { IfOk result (λ text. text ≡ id_text self.bytes) }
    {
        write_id(alloc, &self.bytes)
    }
}
