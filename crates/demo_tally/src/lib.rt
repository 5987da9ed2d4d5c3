//! The numbers of a demo, counted over its history.
#![tactic(auto)]

mod laws;
mod tally;
mod tree_file;

pub use laws::tree_files;
pub use tally::{Deed, deeds_in, entries_in, tally_of};
