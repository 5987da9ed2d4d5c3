// The words of a line, one after the other.
use crate::page::Page;
use crate::refusal::Unread;

/// The words of a line that haven't been read yet. Words are parted by single spaces.
#[derive(Clone, Copy, Drop)]
pub struct Line<'a> {
    rest: &'a str,
}

/// The number that a word is. Refused where it is none.
pub fn number_of(page: &mut Page, word: &str) -> u64 {
    match word.parse::<u64>() {
        Ok(number) => number,
        Err(_) => {
            page.unread(Unread::Number);
            0
        }
    }
}

impl<'a> Line<'a> {
    /// All words of the text.
    pub fn of(text: &'a str) -> Line<'a> {
        Line { rest: text }
    }

    /// The next word. The empty text where there is none.
    pub fn word(&mut self) -> &'a str {
        let (word, rest) = self.rest.split_once(' ').unwrap_or((self.rest, ""));
        self.rest = rest;
        word
    }

    /// What hasn't been read yet.
    pub fn rest(&self) -> &'a str {
        self.rest
    }

    /// The next word as a number. Refused where it is none.
    pub fn number(&mut self, page: &mut Page) -> u64 {
        number_of(page, self.word())
    }

    /// The next word as a number of 32 bits, as those of processes and handles. Refused where it is none.
    pub fn short_number(&mut self, page: &mut Page) -> u32 {
        match self.word().parse::<u32>() {
            Ok(number) => number,
            Err(_) => {
                page.unread(Unread::Number);
                0
            }
        }
    }

    /// Refused where words are left.
    pub fn end(&self, page: &mut Page) {
        if !self.rest.is_empty() {
            page.unread(Unread::TooMuch);
        }
    }
}
