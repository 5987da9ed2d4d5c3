// Why a script ends before its end.
use std::alloc::AllocFailed;
use std::{fmt, io};

/// What a line of a script has that can't be read.
#[derive(Clone, Copy)]
pub enum Unread {
    /// The line says nothing that the program knows.
    Line,
    /// A word that isn't known there.
    Word,
    /// A number that is none, or isn't allowed there.
    Number,
    /// No name of what it should name, or nothing has that name.
    Name,
    /// A text that has not the form that is wanted.
    Text,
    /// A word or a part of the line lacks.
    Missing,
    /// There are more words than are read.
    TooMuch,
    /// The process has begun already, or hasn't begun.
    Process,
}

/// Why a script ends before its end.
#[derive(Clone, Copy)]
pub enum Refusal {
    /// The line can't be read.
    Unread(Unread),
    /// Memory ran out.
    NoMemory,
    /// Standard input can't be read, or standard output took no more.
    Stream,
}

fn what(refusal: Refusal) -> &'static str {
    match refusal {
        Refusal::Unread(Unread::Line) => "unknown line",
        Refusal::Unread(Unread::Word) => "unknown word",
        Refusal::Unread(Unread::Number) => "no such number",
        Refusal::Unread(Unread::Name) => "no such name",
        Refusal::Unread(Unread::Text) => "no such text",
        Refusal::Unread(Unread::Missing) => "something is missing",
        Refusal::Unread(Unread::TooMuch) => "too many words",
        Refusal::Unread(Unread::Process) => "no such process",
        Refusal::NoMemory => "out of memory",
        Refusal::Stream => "a stream failed",
    }
}

impl fmt::Display for Refusal {
    fn fmt<W: fmt::Write>(&self, f: &mut fmt::Formatter<W>) -> fmt::Result {
        f.write_str(what(*self))
    }
}

impl<T: Drop> From<AllocFailed<T>> for Refusal {
    fn from(_refused: AllocFailed<T>) -> Refusal {
        Refusal::NoMemory
    }
}

impl From<io::Error> for Refusal {
    fn from(_error: io::Error) -> Refusal {
        Refusal::Stream
    }
}
