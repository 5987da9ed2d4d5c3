//! Which image of a list a reference or a dependency names, and the tree of an image's dependencies.
#![tactic(auto)]

pub mod dep_error;
pub mod dep_tree;
pub mod dependencies;
pub mod refusals;
pub mod selection;
pub mod stored;
mod wanted;

pub use dep_error::DepError;
pub use dep_tree::{DepNode, DepNodes, DepTree, Places};
pub use dependencies::closure;
pub use selection::{best, best_dependency};
pub use stored::Stored;
