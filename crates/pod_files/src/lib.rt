//! The files of a pod in run that tell who it is: its manifest, its token, and any other by its path.
#![tactic(auto)]

mod error;
mod manifest;
mod part;
mod token;

pub use error::{FileError, file_error};
pub use manifest::read_manifest;
pub use part::read_part;
pub use token::read_token;
