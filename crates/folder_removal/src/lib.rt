//! Deletes a folder with everything in it.
#![tactic(auto)]

mod delete;
mod error;
mod path;
mod task;

pub use delete::delete_folder;
pub use error::DeleteError;
