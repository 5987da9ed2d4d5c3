//! The local rules: what a process knows by its own answers, and what it may ask for next.
#![tactic(auto)]

mod seen;
mod standing;

pub use seen::{Created, Entry, Making, Seen, ShownArea, ShownItem};
pub use standing::{Held, Standing};
