//! What a command comes to: the text that it prints, or why it wasn't done, with the status and the message of that.
#![tactic(auto)]

mod output;
mod refusal;
mod told;

pub use output::Output;
pub use refusal::{Refusal, area_name, lock_name, named};
pub use told::Told;
