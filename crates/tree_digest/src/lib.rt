//! Listings of trees, their digests, and the check of a file's bytes.
#![tactic(auto)]

pub mod escapes;
pub mod file_check;
pub mod line;
mod line_fault;
pub mod listing;
pub mod listing_error;
pub mod maps;
mod numbers;
mod read_fields;
mod read_line;
mod read_lines;
pub mod refusals;
mod take_line;
mod write_line;

pub use file_check::FileCheck;
pub use line::ListingLine;
pub use listing::Listing;
pub use listing_error::ListingError;
pub use maps::{are_listable, is_listable};
