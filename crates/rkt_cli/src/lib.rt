//! The top call: the words of a command line, what the command does, what it writes and its status.
#![tactic(auto)]

mod command;
mod line;
mod lookup;
mod perform;
mod playing;
mod print;
mod stage;
mod top;
mod turn;

pub use line::{Line, named_path, read_line};
pub use playing::demo;
pub use print::refuse;
pub use top::rkt;
