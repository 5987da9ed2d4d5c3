//! Octal and decimal numbers.

ghost use Rattle.std.specs.Prelude.{◌≡◌, ◌≢◌, ◌<◌, ◌++◌, ℕ, List, [], ◌∷◌, ◌≤◌, min, IfSome, IfNone, OnOk, OnErr};
ghost use Rattle.tree_digest.specs.Fields.{octal_text, decimal_text};

use ac_types::NoMemory;
use std::alloc::Global;

/// A number past this one is read as this one: it is past every limit of a listing.
pub(crate) const MOST: u64 = 1 << 40;

/// The number that four octal digits are.
pub(crate) fn read_octal(field: &[u8]) -> Option<u16>
    ensures some { IfSome result (λ n. (n < 4096) × (field.now ≡ octal_text n)) }
    ensures none { IfNone result ((n : ℕ) → n < 4096 → field.now ≢ octal_text n) }
{
    match field {
        [
            a @ b'0'..=b'7',
            b @ b'0'..=b'7',
            c @ b'0'..=b'7',
            d @ b'0'..=b'7',
        ] => Some(value_of(*a, *b, *c, *d)),
        _ => None,
    }
}

/// The number of four octal digits.
fn value_of(a: u8, b: u8, c: u8, d: u8) -> u16
    requires a { 48 ≤ a × a ≤ 55 }
    requires b { 48 ≤ b × b ≤ 55 }
    requires c { 48 ≤ c × c ≤ 55 }
    requires d { 48 ≤ d × d ≤ 55 }
    ensures small { result < 4096 }
    ensures digits { octal_text result ≡ a ∷ b ∷ c ∷ d ∷ [] }
{
    u16::from(a - 48) * 512 + u16::from(b - 48) * 64 + u16::from(c - 48) * 8 + u16::from(d - 48)
}

/// Appends the four octal digits of a number.
pub(crate) fn write_octal(out: &mut Vec<u8>, number: u16) -> Result<(), NoMemory>
    requires { number < 4096 }
    ensures { OnOk result (out.new.items ≡ out.old.items ++ octal_text number) }
{
    out.push(48 + (number / 512) as u8)?;
    out.push(48 + (number / 64 % 8) as u8)?;
    out.push(48 + (number / 8 % 8) as u8)?;
    out.push(48 + (number % 8) as u8)?;
    Ok(())
}

/// The number that a decimal without leading zeros is; `MOST` for a greater one.
pub(crate) fn read_decimal(field: &[u8]) -> Option<u64>
    ensures some { IfSome result (λ value. (n : ℕ) × (value ≡ min n MOST) × (field.now ≡ decimal_text n)) }
    ensures none { IfNone result ((n : ℕ) → field.now ≢ decimal_text n) }
{
    if field.is_empty() {
        return None;
    }
    if field[0] == b'0' {
        return if field.len() == 1 { Some(0) } else { None };
    }
    let mut value: u64 = 0;
    for byte in field {
        if !byte.is_ascii_digit() {
            return None;
        }
        value = (value * 10 + u64::from(*byte - 48)).min(MOST);
    }
    Some(value)
}

/// Appends a decimal without leading zeros.
pub(crate) fn write_decimal(alloc: Global, out: &mut Vec<u8>, number: u64) -> Result<(), NoMemory>
    ensures { OnOk result (out.new.items ≡ out.old.items ++ decimal_text number) }
{
    let text = format!(in alloc; "{number}")?;
    out.extend_from_slice(text.as_bytes())?;
    Ok(())
}
