//! Whether entries are a plan: what has to be known of them before a folder is filled by them.
#![tactic(auto)]

mod check;

pub use check::is_plan;
