//! Hex digits of digests, and the texts of image IDs and store keys.
ghost use Rattle.std.specs.Prelude.{◌≡◌, ◌≤◌, Some, None, MatchBool, IfOk, length};
ghost use Rattle.std.specs.Str.{bytes_eq};
ghost use Rattle.hex.specs.Hex.{encode_lower};
ghost use Rattle.ac_types.specs.Ids.{hex_read, id_read, id_text};

use crate::memory::NoMemory;
use crate::text::Text;
use std::alloc::Global;

/// Whether the text is `sha512-` and the lower-case hex digits of as many bytes as there is room
/// for, which are then written there.
pub(crate) fn read_id(text: &str, room: &mut [u8]) -> bool
    requires { length room.old ≤ 64 }
    ensures { MatchBool result (id_read (length room.old) text.now ≡ Some room.new) (id_read (length room.old) text.now ≡ None) }
{
    match text.as_bytes().strip_prefix(b"sha512-") {
        Some(digits) => read_digits(digits, room),
        None => false,
    }
}

fn read_digits(digits: &[u8], room: &mut [u8]) -> bool
    requires { length room.old ≤ 64 }
    ensures { MatchBool result (hex_read (length room.old) digits.now ≡ Some room.new) (hex_read (length room.old) digits.now ≡ None) }
{
    if hex::decode_to_slice(digits, room).is_err() {
        return false;
    }
    are_digits_of(digits, room)
}

/// Digits of either case decode, so those that were read are written again.
fn are_digits_of(digits: &[u8], bytes: &[u8]) -> bool
    requires { length bytes.now ≤ 64 }
    ensures { result ≡ bytes_eq digits.now (encode_lower bytes.now) }
{
    let mut buffer = [0; 128];
    let again = &mut buffer[..2 * bytes.len()];
    match hex::encode_to_slice(bytes, again) {
        Ok(()) => digits == &*again,
        Err(_) => unreachable!(),
    }
}

/// The lower-case hex digits of a digest. Takes no memory.
pub fn lower_hex(digest: &[u8; 64]) -> [u8; 128]
    ensures { result ≡ encode_lower digest.now }
{
    let mut digits = [0; 128];
    match hex::encode_to_slice(digest.as_slice(), &mut digits) {
        Ok(()) => digits,
        Err(_) => unreachable!(),
    }
}

/// The text of an ID: `sha512-` and the lower-case hex digits of its bytes.
#[tactic(auto, unfolding(crate::specs::Ids::id_text))]
pub(crate) fn write_id(alloc: Global, bytes: &[u8]) -> Result<Text, NoMemory>
    ensures { IfOk result (λ text. text ≡ id_text bytes.now) }
{
    let digits = hex::encode(alloc, bytes)?;
    let mut text = String::from_str(alloc, "sha512-")?;
    text.push_str(digits.as_str())?;
    Ok(Text::from_string(text))
}
