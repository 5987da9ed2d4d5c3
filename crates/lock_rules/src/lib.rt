//! What a process knows of locks and places, and what the local rules let it ask for there.
#![tactic(auto)]

mod change;
mod held;
mod kind;
mod lock_rules;
mod standing;

pub use held::{
    area_of, gives_up_exclusive_gate, gives_up_removal, gives_up_shared_gate, is_own_held,
};
pub use standing::StandingTable;
