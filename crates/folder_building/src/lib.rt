//! Fills a folder of the data folder by a plan: directories, files with given bytes, and files copied from
//! elsewhere, checked while they are copied; and syncs everything. The plans of listed trees and of images, and
//! what it means that a folder holds them.
#![tactic(auto)]

mod build;
mod bundle_source;
mod copy;
mod error;
mod image_folder;
mod listed;
mod plan;
mod source;
mod store_source;

pub use build::carry_out;
pub use bundle_source::BundleSource;
pub use error::BuildError;
pub use image_folder::image_plan;
pub use listed::tree_plan;
pub use plan::{Content, Origin, PlanEntry};
pub use source::{Source, SourceError};
pub use store_source::StoreSource;
