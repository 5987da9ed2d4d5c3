//! What an image bundle says: its manifest, its ID, and its listing, given or walked.
#![tactic(auto)]

mod entry;
mod file;
mod file_sum;
mod head;
mod image;
mod lines;
mod link;
mod listing;
mod place;
mod refusal;
mod task;
mod walk;

pub use file::read_file;
pub use image::{BundleImage, read_bundle};
pub use refusal::BundleRefusal;
