//! The commands, one file each: what each asks of the outside, what it comes to, and why it is refused.
#![tactic(auto)]

mod app_ends;
pub mod cat_manifest;
pub mod gc;
pub mod image_gc;
pub mod image_import;
pub mod image_list;
pub mod image_rm;
pub mod list;
pub mod metadata_service;
pub mod prepare;
mod prepare_refusals;
pub mod rm;
pub mod run;
pub mod run_prepared;
mod run_refusals;
mod running;
pub mod status;
pub mod validate;
mod wanted;

pub use wanted::Wanted;
