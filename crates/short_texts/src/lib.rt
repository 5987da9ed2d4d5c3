//! What the program and the library share that play scripts of single calls: texts with short names, repeats and escapes in
//! them, paths and entries as letters, and how answers are printed.
#![tactic(auto)]

mod entries;
mod names;
mod pieces;
mod printed;

pub use entries::{lay, lay_letter, letter_of, link_of, path_of};
pub use names::{TextNames, text_from};
pub use printed::print_answer;
