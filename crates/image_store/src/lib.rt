//! The image store of a shared data folder: images are imported from bundles, listed and read.
#![tactic(auto)]

mod building;
mod error;
mod importing;
mod look;
mod placing;
mod refusing;

pub use image_reading::{StoreError, read_tree, stored};
pub use importing::{Imported, import};
pub use look::open_store;
