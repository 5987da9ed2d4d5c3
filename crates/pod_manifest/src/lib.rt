//! Pod manifests made from images and from what the user asks for.
#![tactic(auto)]

mod app_names;
mod checks;
pub mod gen_error;
pub mod generation;
mod mounts;
pub mod options;
pub mod refusals;
mod runtime_apps;
mod volumes;

pub use gen_error::GenError;
pub use generation::generate;
pub use options::Options;
