// What is printed of answers.
use crate::dir_words::{answer_text, kind_text};
use anyhow::Result;
use dir_trait::{DirError, Items, Names};
use std::result;

/// A line for the answer.
pub fn print_answer(rt: &HostRuntime, answer: result::Result<(), DirError>) -> Result<()> {
    println!(rt; "{}", answer_text(answer))?;
    Ok(())
}

/// A line for a number.
pub fn print_count(rt: &HostRuntime, count: u64) -> Result<()> {
    println!(rt; "{count}")?;
    Ok(())
}

/// A line for each name, and then one for the answer.
pub fn print_names(rt: &HostRuntime, names: result::Result<Names, DirError>) -> Result<()> {
    match names {
        Ok(names) => {
            for name in names.as_slice() {
                println!(rt; "{}", name.as_str())?;
            }
            print_answer(rt, Ok(()))
        }
        Err(error) => print_answer(rt, Err(error)),
    }
}

/// A line for each item, and then one for the answer.
pub fn print_items(rt: &HostRuntime, items: result::Result<Items, DirError>) -> Result<()> {
    match items {
        Ok(items) => {
            for item in items.as_slice() {
                println!(rt; "{} {}", kind_text(item.kind), item.name.as_str())?;
            }
            print_answer(rt, Ok(()))
        }
        Err(error) => print_answer(rt, Err(error)),
    }
}
