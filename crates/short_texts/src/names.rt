// Short names of long texts.
use crate::pieces::{add_bytes, add_plain, add_text, name_length};
use scripts::{Page, Unread};
use std::alloc::Global;

/// A text with its name, behind a `$`.
#[derive(Drop)]
struct TextName {
    sign: String,
    text: String,
}

/// From how many bytes on a text is shown by its name.
const LONG: usize = 24;

/// The names that a script gives to texts.
#[derive(Drop)]
pub struct TextNames {
    rows: Vec<TextName>,
}

/// The bytes as a text. Refused where they are none.
pub fn text_from(page: &mut Page, bytes: Vec<u8>) -> String {
    match String::from_utf8(bytes) {
        Ok(text) => text,
        Err(_) => {
            page.unread(Unread::Text);
            String::new(page.alloc())
        }
    }
}

impl TextNames {
    /// No name yet. Takes no memory.
    pub fn new(alloc: Global) -> TextNames {
        TextNames {
            rows: Vec::new(alloc),
        }
    }

    fn add(&mut self, page: &mut Page, name: &str, text: &str) {
        let text = self.text_of(page, text);
        let mut sign = page.text("$");
        add_text(page, &mut sign, name);
        page.push(&mut self.rows, TextName { sign, text });
    }

    /// Gives a text a name, as `NAME = TEXT` says it. Refused where it has no such form, and for a name that
    /// came before.
    pub fn define(&mut self, page: &mut Page, line: &str) {
        let Some((name, text)) = line.split_once(" = ") else {
            return page.unread(Unread::Missing);
        };
        if name_length(name) != name.len() || self.find(name).is_some() {
            return page.unread(Unread::Name);
        }
        self.add(page, name, text);
    }

    fn find(&self, name: &str) -> Option<&str> {
        for row in self.rows.as_slice() {
            if row.sign.strip_prefix('$') == Some(name) {
                return Some(row.text.as_str());
            }
        }
        None
    }

    fn named(&self, page: &mut Page, name: &str) -> &str {
        if let Some(text) = self.find(name) {
            return text;
        }
        page.unread(Unread::Name);
        ""
    }

    // A text or the text of a name, so many times: `x^64`.
    fn add_times(&self, page: &mut Page, whole: &mut Vec<u8>, repeat: &str) {
        let Some((once, times)) = repeat.split_once('^') else {
            return page.unread(Unread::Text);
        };
        let is_named = once.starts_with(|letter: char| letter.is_ascii_uppercase());
        let once = if is_named {
            self.named(page, once)
        } else {
            once
        };
        let Some(times) = page.read(times.parse::<usize>(), Unread::Number) else {
            return;
        };
        if let Some(repeated) = page.made(once.repeat(page.alloc(), times)) {
            add_bytes(page, whole, repeated.as_bytes());
        }
    }

    // The same and what follows it: `x^64)` and a text.
    fn add_repeated(&self, page: &mut Page, whole: &mut Vec<u8>, piece: &str) {
        match piece.split_once(')') {
            Some((repeat, rest)) => {
                self.add_times(page, whole, repeat);
                add_plain(page, whole, rest);
            }
            None => page.unread(Unread::Text),
        }
    }

    // The text of a name, and what follows it.
    fn add_named(&self, page: &mut Page, whole: &mut Vec<u8>, piece: &str) {
        match piece.split_at_checked(name_length(piece)) {
            Some((name, rest)) => {
                let text = self.named(page, name);
                add_bytes(page, whole, text.as_bytes());
                add_plain(page, whole, rest);
            }
            None => page.unread(Unread::Name),
        }
    }

    /// The bytes that a script writes so: `$NAME` is the text of a name, `$(NAME^16)` sixteen times that text,
    /// `$(x^64)` sixty-four times the letter, and escapes are those of `add_plain`. Refused for a name that
    /// stands for nothing.
    pub fn bytes_of(&self, page: &mut Page, text: &str) -> Vec<u8> {
        let mut whole = Vec::new(page.alloc());
        for (place, piece) in text.split('$').enumerate() {
            if place == 0 {
                add_plain(page, &mut whole, piece);
            } else if let Some(repeat) = piece.strip_prefix('(') {
                self.add_repeated(page, &mut whole, repeat);
            } else {
                self.add_named(page, &mut whole, piece);
            }
        }
        whole
    }

    /// The same as a text. Refused where it is none.
    pub fn text_of(&self, page: &mut Page, text: &str) -> String {
        let bytes = self.bytes_of(page, text);
        text_from(page, bytes)
    }

    // Adds the words of the text of a name.
    fn add_words(&self, page: &mut Page, words: &mut Vec<String>, name: &str) {
        for word in self.named(page, name).split(' ') {
            let word = page.text(word);
            page.push(words, word);
        }
    }

    // Adds a word as it is written, `""` as the empty one.
    fn add_word(&self, page: &mut Page, words: &mut Vec<String>, word: &str) {
        let text = self.text_of(page, if word == "\"\"" { "" } else { word });
        page.push(words, text);
    }

    /// The words of a line, each read as a text by itself, `""` as the empty one. In place of `@NAME` come the
    /// words of the text of that name.
    pub fn words_of(&self, page: &mut Page, line: &str) -> Vec<String> {
        let mut words = Vec::new(page.alloc());
        for word in line.split(' ') {
            match word.strip_prefix('@') {
                Some(name) => self.add_words(page, &mut words, name),
                None if word.is_empty() => (),
                None => self.add_word(page, &mut words, word),
            }
        }
        words
    }

    /// The text, in which each long text that has a name is shown by it.
    pub fn shortened(&self, page: &mut Page, text: String) -> String {
        let mut whole = text;
        for row in self.rows.as_slice() {
            let long = row.text.as_str();
            if long.len() >= LONG && whole.contains(long) {
                let shown = whole.replace(page.alloc(), long, row.sign.as_str());
                whole = page.made(shown).unwrap_or(String::new(page.alloc()));
            }
        }
        whole
    }
}
