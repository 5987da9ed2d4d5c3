// The moments of marks.
ghost use Rattle.std.specs.Prelude.{◌≡◌, ◌+◌, ◌≤◌, ◌↔◌, Some, None, length, drop, cond, nat_le, IsTrue};
ghost use Rattle.dir_rules.specs.Marks.{number_of, mark_moment, created_moment};
ghost use Rattle.dir_rules.specs.Seen.{later};

use crate::mark::is_mark;

// The number that decimal digits stand for.
fn number_of(digits: &[u8]) -> u128
    requires { length digits.now ≤ 20 }
    ensures { result ≡ number_of digits.now }
{
    let mut number: u128 = 0;
    'digits: for digit in digits {
        number = number * 10 + u128::from(digit.saturating_sub(b'0'));
    }
    number
}

// The greatest number of 64 bits.
const MOST: u128 = 18_446_744_073_709_551_615;

fn in_64_bits(number: u128) -> Option<u64>
    ensures { result ≡ cond (nat_le number 18446744073709551615) (Some number) None }
{
    if number <= MOST {
        Some(number as u64)
    } else {
        None
    }
}

// Whether a name is longer than the text by the digits of a mark.
fn is_mark_long(text: &[u8], name: &[u8]) -> bool
    ensures { IsTrue result ↔ (length name.now ≡ length text.now + 20) }
{
    name.len() >= text.len() && name.len() - text.len() == 20
}

// The number behind the front of a mark.
fn number_in(text: &[u8], name: &[u8]) -> u128
    requires { length name.now ≡ length text.now + 20 }
    ensures { result ≡ number_of (drop (length text.now) name.now) }
{
    number_of(&name[text.len()..])
}

/// The moment of a mark that begins with the text. None where the name is no such mark, or its digits
/// stand for more than a number of 64 bits.
pub fn moment_of(text: &[u8], name: &[u8]) -> Option<u64>
    ensures { result ≡ mark_moment text.now name.now }
{
    if !is_mark_long(text, name) {
        return None;
    }
    let moment = number_in(text, name);
    if is_mark(text, moment, name) {
        in_64_bits(moment)
    } else {
        None
    }
}

/// The moment of a `created-` mark. None where the name is none.
pub fn created_moment(name: &[u8]) -> Option<u64>
    ensures { result ≡ created_moment name.now }
{
    moment_of(b"created-", name)
}

/// The later of two moments, where there are any.
pub fn later(a: Option<u64>, b: Option<u64>) -> Option<u64>
    ensures { result ≡ later a b }
{
    match (a, b) {
        (Some(a), Some(b)) => Some(a.max(b)),
        (Some(a), None) => Some(a),
        (None, b) => b,
    }
}
