// Texts as a script writes them.
use crate::page::Page;
use std::str;

// How often the character before a `^` stands there, and the text behind.
fn times(piece: &str) -> Option<(u64, &str)> {
    let digits = piece
        .bytes()
        .take_while(|byte| byte.is_ascii_digit())
        .count();
    let (number, rest) = piece.split_at_checked(digits)?;
    Some((number.parse::<u64>().ok()?, rest))
}

fn add(page: &mut Page, whole: &mut String, text: &str) {
    if whole.push_str(text).is_err() {
        page.no_memory();
    }
}

fn add_character(page: &mut Page, whole: &mut String, character: char) {
    if whole.push(character).is_err() {
        page.no_memory();
    }
}

// The last character once more, so that it stands there that many times.
fn repeat_last(page: &mut Page, text: &mut String, number: u64) {
    let last = text.chars().last().unwrap_or(' ');
    for _ in 1..number {
        if text.push(last).is_err() {
            return page.no_memory();
        }
    }
}

fn add_repeats(page: &mut Page, whole: &mut String, text: &str) {
    for (place, piece) in text.split('^').enumerate() {
        if place == 0 {
            add(page, whole, piece);
        } else if let Some((number, rest)) = times(piece) {
            repeat_last(page, whole, number);
            add(page, whole, rest);
        } else {
            add(page, whole, "^");
            add(page, whole, piece);
        }
    }
}

fn meant(escape: char) -> char {
    match escape {
        'n' => '\n',
        't' => '\t',
        's' => ' ',
        '0' => '\0',
        _ => escape,
    }
}

fn add_meant(page: &mut Page, whole: &mut String, text: &str) {
    let mut escaped = false;
    for character in text.chars() {
        if escaped {
            add_character(page, whole, meant(character));
            escaped = false;
        } else if character == '\\' {
            escaped = true;
        } else {
            add_character(page, whole, character);
        }
    }
}

/// The text that a script writes so: `a^64` is 64 times the letter `a`, `\n` a line break, `\t` a tab,
/// `\s` a space, `\0` the byte 0, and `\` before anything else that itself.
pub fn unfolded(page: &mut Page, text: &str) -> String {
    let mut repeated = String::new(page.alloc());
    add_repeats(page, &mut repeated, text);
    let mut whole = String::new(page.alloc());
    add_meant(page, &mut whole, repeated.as_str());
    whole
}

// A text on one line, as a script writes it.
fn print_text(page: &mut Page, text: &str) {
    for character in text.chars() {
        match character {
            '\n' => page.put("\\n"),
            '\t' => page.put("\\t"),
            '\0' => page.put("\\0"),
            '\\' => page.put("\\\\"),
            _ => page.tell(&character),
        }
    }
}

/// Prints bytes as a script writes them: a text on one line; of more than so many bytes, and of what is no
/// text, the number, the first and the last byte.
pub fn print_bytes(page: &mut Page, bytes: &[u8], most: usize) {
    match str::from_utf8(bytes) {
        Ok(text) if bytes.len() <= most => return print_text(page, text),
        _ => page.tell(&bytes.len()),
    }
    page.put(" bytes");
    if let [first, .., last] = bytes {
        page.put(" ");
        page.tell(first);
        page.put("..");
        page.tell(last);
    }
}
