//! Whether a process kept the local rules, as a history shows it.
#![tactic(auto)]

mod asked;
mod conformance;
mod making;
mod rules;
mod seen;
mod shown;
mod table;

pub use asked::is_removal_requested;
pub use conformance::keeps_rules;
