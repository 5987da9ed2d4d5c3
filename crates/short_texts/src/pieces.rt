// The parts of a text as a script writes it.
use scripts::{Page, Unread};

/// Adds bytes to those.
pub fn add_bytes(page: &mut Page, whole: &mut Vec<u8>, bytes: &[u8]) {
    if whole.extend_from_slice(bytes).is_err() {
        page.no_memory();
    }
}

/// Adds a text to that.
pub fn add_text(page: &mut Page, whole: &mut String, text: &str) {
    if whole.push_str(text).is_err() {
        page.no_memory();
    }
}

// A byte of two hexadecimal digits, and what follows it.
fn add_byte(page: &mut Page, whole: &mut Vec<u8>, piece: &str) {
    let (digits, rest) = piece.split_at_checked(2).unwrap_or(("", ""));
    match u8::from_str_radix(digits, 16) {
        Ok(byte) => add_bytes(page, whole, &[byte]),
        Err(_) => page.unread(Unread::Text),
    }
    add_bytes(page, whole, rest.as_bytes());
}

// What stands behind a backslash.
fn add_escape(page: &mut Page, whole: &mut Vec<u8>, piece: &str) {
    let (letter, rest) = piece.split_at_checked(1).unwrap_or(("", ""));
    match letter {
        "n" => add_bytes(page, whole, b"\n"),
        "s" => add_bytes(page, whole, b" "),
        "u" => add_bytes(page, whole, b"\\u"),
        "x" => return add_byte(page, whole, rest),
        _ => page.unread(Unread::Text),
    }
    add_bytes(page, whole, rest.as_bytes());
}

/// Adds a text without short names: `\n` is a line break, `\s` a space, `\xHH` a byte, and `\u` stays as it
/// is, for the escapes of JSON. Refused for any other escape.
pub fn add_plain(page: &mut Page, whole: &mut Vec<u8>, text: &str) {
    for (place, piece) in text.split('\\').enumerate() {
        if place == 0 {
            add_bytes(page, whole, piece.as_bytes());
        } else {
            add_escape(page, whole, piece);
        }
    }
}

/// How many bytes of a name the text begins with.
pub fn name_length(text: &str) -> usize {
    text.bytes()
        .take_while(|byte| byte.is_ascii_uppercase() || byte.is_ascii_digit())
        .count()
}
