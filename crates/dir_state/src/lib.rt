//! The state of a data folder as data, kept together with the trace that leaves it.
#![tactic(auto)]

mod answer;
mod bring;
mod compare;
mod listings;
mod namespace;
mod parts;
mod past;
mod table;
mod trees;

pub use compare::{is_this, target_of};
pub use namespace::NamespaceTable;
pub use parts::{Brought, Table, TreeTable};
pub use past::Past;
