//! The fields of a line.

ghost use Rattle.std.specs.Prelude.{◌≡◌, ◌≢◌, ◌<◌, ℕ, List, length, min, IfSome, IfNone};
ghost use Rattle.std.specs.List.{All};
ghost use Rattle.hex.specs.Hex.{encode_lower};
ghost use Rattle.path_map.specs.declared.entry.Meta.{Meta};
ghost use Rattle.tree_digest.specs.Fields.{octal_text, decimal_text, field};
ghost use Rattle.path_map.specs.Paths.{HasNone};
ghost use Rattle.tree_digest.specs.Lines.{meta_text, IsMeta};

use crate::escapes::same;
use crate::numbers::{MOST, read_decimal, read_octal};
use ac_types::lower_hex;
use path_map::Meta;

/// The part before the first space, and the part after it.
#[tactic(auto, using(crate::proofs::Cuts::cut_at, crate::proofs::Cuts::none_more, crate::proofs::Cuts::none_all))]
pub(crate) fn cut(text: &[u8]) -> Option<(&[u8], &[u8])>
    ensures some { IfSome result (λ p. (text.now ≡ field p.0.now p.1.now) × HasNone 32 p.0.now) }
    ensures none { IfNone result (HasNone 32 text.now) }
{
    for (place, byte) in text.iter().enumerate() {
        if *byte == b' ' {
            return Some((&text[..place], &text[place + 1..]));
        }
    }
    None
}

/// A mode, and what follows it.
fn read_mode(text: &[u8]) -> Option<(u16, &[u8])>
    ensures some { IfSome result (λ p. (text.now ≡ field (octal_text p.0) p.1.now) × (p.0 < 4096)) }
    ensures none { IfNone result ((n : ℕ) (rest : List ℕ) → n < 4096 → text.now ≢ field (octal_text n) rest) }
{
    let (digits, rest) = cut(text)?;
    let mode = read_octal(digits)?;
    Some((mode, rest))
}

/// A number, and what follows it; `MOST` for a greater one.
pub(crate) fn read_number(text: &[u8]) -> Option<(u64, &[u8])>
    ensures some { IfSome result (λ p. (n : ℕ) × (p.0 ≡ min n MOST) × (text.now ≡ field (decimal_text n) p.1.now)) }
    ensures none { IfNone result ((n : ℕ) (rest : List ℕ) → text.now ≢ field (decimal_text n) rest) }
{
    let (digits, rest) = cut(text)?;
    let number = read_decimal(digits)?;
    Some((number, rest))
}

/// An owner, and what follows it.
fn read_owner(text: &[u8]) -> Option<(u32, &[u8])>
    ensures some { IfSome result (λ p. (text.now ≡ field (decimal_text p.0) p.1.now) × (p.0 < 4294967296)) }
    ensures none { IfNone result ((n : ℕ) (rest : List ℕ) → n < 4294967296 → text.now ≢ field (decimal_text n) rest) }
{
    let (number, rest) = read_number(text)?;
    if number > u64::from(u32::MAX) {
        return None;
    }
    Some((number as u32, rest))
}

/// The mode and the owners, and what follows them.
pub(crate) fn read_meta(text: &[u8]) -> Option<(Meta, &[u8])>
    ensures some { IfSome result (λ p. (text.now ≡ meta_text p.0 p.1.now) × IsMeta p.0) }
    ensures none { IfNone result ((meta : Meta) (rest : List ℕ) → IsMeta meta → text.now ≢ meta_text meta rest) }
{
    let (mode, owners) = read_mode(text)?;
    let (uid, group) = read_owner(owners)?;
    let (gid, rest) = read_owner(group)?;
    Some((Meta { mode, uid, gid }, rest))
}

/// A SHA-512 in lower-case hex digits, and what follows it.
pub(crate) fn read_sha(text: &[u8]) -> Option<([u8; 64], &[u8])>
    ensures some { IfSome result (λ p. (text.now ≡ field (encode_lower p.0) p.1.now) × (length p.0 ≡ 64) × All (λ b. b < 256) p.0) }
    ensures none { IfNone result ((sha rest : List ℕ) → length sha ≡ 64 → All (λ b. b < 256) sha → text.now ≢ field (encode_lower sha) rest) }
{
    let (digits, rest) = cut(text)?;
    let sha = sha_of(digits)?;
    Some((sha, rest))
}

/// The SHA-512 that some lower-case hex digits are.
fn sha_of(digits: &[u8]) -> Option<[u8; 64]>
    ensures some { IfSome result (λ sha. (digits.now ≡ encode_lower sha) × (length sha ≡ 64) × All (λ b. b < 256) sha) }
    ensures none { IfNone result ((sha : List ℕ) → length sha ≡ 64 → All (λ b. b < 256) sha → digits.now ≢ encode_lower sha) }
{
    let mut sha = [0; 64];
    if hex::decode_to_slice(digits, &mut sha).is_err() {
        return None;
    }
    let again = lower_hex(&sha);
    if !same(&again, digits) {
        return None;
    }
    fit_bytes(&sha);
    Some(sha)
}

/// Bytes are below 256, as the clause says.
pub(crate) fn fit_bytes(bytes: &[u8])
    ensures { All (λ b. b < 256) bytes.now }
{
    let _length = bytes.len();
}
