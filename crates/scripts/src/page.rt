// What is printed below a line, and why the script ends there.
use crate::refusal::{Refusal, Unread};
use dir_model::Bytes;
use std::alloc::Global;
use std::fmt::{Display, Write};
use std::{mem, str};

/// What comes below a line of a script, gathered while the line is played, and the first reason, if there was
/// one, why the script ends there. Nothing that is done with the page fails: what is read behind such a
/// reason is a plain value, and nothing of it is printed.
#[derive(Drop)]
pub struct Page {
    alloc: Global,
    text: String,
    refusal: Option<Refusal>,
}

impl Page {
    /// An empty page. Takes no memory.
    pub fn new(alloc: Global) -> Page {
        Page {
            alloc,
            text: String::new(alloc),
            refusal: None,
        }
    }

    /// What is made for the page takes its memory there.
    pub fn alloc(&self) -> Global {
        self.alloc
    }

    /// Ends the script, for this reason if it is the first.
    pub fn refuse(&mut self, refusal: Refusal) {
        if self.refusal.is_none() {
            self.refusal = Some(refusal);
        }
    }

    /// Ends the script, since memory ran out.
    pub fn no_memory(&mut self) {
        self.refuse(Refusal::NoMemory);
    }

    /// Ends the script, since the line has something that can't be read.
    pub fn unread(&mut self, what: Unread) {
        self.refuse(Refusal::Unread(what));
    }

    /// Why the script ends here.
    pub fn refusal(&self) -> Option<Refusal> {
        self.refusal
    }

    /// What was made. None where memory ran out, which ends the script.
    pub fn made<T: Drop, E: Drop>(&mut self, answer: Result<T, E>) -> Option<T> {
        if answer.is_err() {
            self.no_memory();
        }
        answer.ok()
    }

    /// What was read. None where it couldn't be, which ends the script.
    pub fn read<T: Drop, E: Drop>(&mut self, answer: Result<T, E>, what: Unread) -> Option<T> {
        if answer.is_err() {
            self.unread(what);
        }
        answer.ok()
    }

    /// Adds a text.
    pub fn put(&mut self, text: &str) {
        if self.text.push_str(text).is_err() {
            self.no_memory();
        }
    }

    /// Adds the texts, one after the other.
    pub fn put_all(&mut self, texts: &[&str]) {
        for text in texts {
            self.put(text);
        }
    }

    /// Adds a value as it is shown.
    pub fn tell<T: Display>(&mut self, value: &T) {
        if write!(self.text, "{value}").is_err() {
            self.no_memory();
        }
    }

    /// Adds two values, with a space between them.
    pub fn tell_both<S: Display, T: Display>(&mut self, first: &S, second: &T) {
        self.tell(first);
        self.put(" ");
        self.tell(second);
    }

    /// Adds a byte as two hexadecimal digits.
    pub fn put_byte(&mut self, byte: u8) {
        if write!(self.text, "{byte:02x}").is_err() {
            self.no_memory();
        }
    }

    /// What was added, which is taken away.
    pub fn take(&mut self) -> String {
        mem::replace(&mut self.text, String::new(self.alloc))
    }

    /// What was added.
    pub fn as_str(&self) -> &str {
        self.text.as_str()
    }

    /// A copy of the text.
    pub fn text(&mut self, text: &str) -> String {
        match String::from_str(self.alloc, text) {
            Ok(copy) => copy,
            Err(_) => {
                self.no_memory();
                String::new(self.alloc)
            }
        }
    }

    /// A copy of the bytes.
    pub fn bytes(&mut self, bytes: &[u8]) -> Bytes {
        match Bytes::of(self.alloc, bytes) {
            Ok(copy) => copy,
            Err(_) => {
                self.no_memory();
                Bytes::from_vec(Vec::new(self.alloc))
            }
        }
    }

    /// The bytes as they are written. Refused where they are no text.
    pub fn put_bytes(&mut self, bytes: &[u8]) {
        match str::from_utf8(bytes) {
            Ok(text) => self.put(text),
            Err(_) => self.unread(Unread::Text),
        }
    }

    /// Adds an item to a list.
    pub fn push<T: Drop>(&mut self, list: &mut Vec<T>, item: T) {
        if list.push(item).is_err() {
            self.no_memory();
        }
    }
}
