// Short names of long texts.
use crate::page::Page;
use crate::refusal::Unread;
use crate::texts::unfolded;
use std::alloc::Global;

#[derive(Drop)]
struct ShortName {
    short: String,
    long: String,
}

/// The short names that a script gives to long texts. What is read may be either, what is printed is the
/// short name wherever a word begins with the long text.
#[derive(Drop)]
pub struct ShortNames {
    rows: Vec<ShortName>,
}

impl ShortNames {
    /// No short name yet. Takes no memory.
    pub fn new(alloc: Global) -> ShortNames {
        ShortNames {
            rows: Vec::new(alloc),
        }
    }

    /// Gives a text a short name, as a line `NAME = TEXT` says it. Refused where it has no such form.
    pub fn define(&mut self, page: &mut Page, line: &str) {
        match line.split_once(" = ") {
            Some((short, text)) => {
                let short = page.text(short);
                let long = unfolded(page, text);
                page.push(&mut self.rows, ShortName { short, long });
            }
            None => page.unread(Unread::Missing),
        }
    }

    /// How many there are.
    pub fn len(&self) -> usize {
        self.rows.len()
    }

    /// The short name that was defined at a place, counted from 0, and its text. None where there are not so
    /// many.
    pub fn get(&self, place: usize) -> Option<(&str, &str)> {
        let row = self.rows.get(place)?;
        Some((row.short.as_str(), row.long.as_str()))
    }

    /// The text of that name, or the word itself.
    pub fn long<'a>(&'a self, word: &'a str) -> &'a str {
        for row in self.rows.as_slice() {
            if row.short.as_str() == word {
                return row.long.as_str();
            }
        }
        word
    }

    // The short name of the text with which the word begins, and what follows it.
    fn short<'a>(&'a self, word: &'a str) -> (&'a str, &'a str) {
        for row in self.rows.as_slice() {
            if let Some(rest) = word.strip_prefix(row.long.as_str()) {
                return (row.short.as_str(), rest);
            }
        }
        ("", word)
    }

    /// Prints the text, in which each word that begins with a long text begins with its name.
    pub fn print(&self, page: &mut Page, text: &str) {
        for (place, word) in text.split(' ').enumerate() {
            let (short, rest) = self.short(word);
            page.put_all(&[if place > 0 { " " } else { "" }, short, rest]);
        }
    }
}
