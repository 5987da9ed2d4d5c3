//! Which pod some references make of the images of the store, and the plan of its folder: the images are
//! read under their area's lock, and nothing is changed.
#![tactic(auto)]

mod app_folder;
mod app_root;
mod apps;
mod choice;
mod choice_error;
mod entries;
mod images;
mod laying;
mod picks;
mod plan;
mod plan_error;
mod planning;
mod pod_app;
mod pod_folder;
mod root_folder;
mod token;
mod trees;

pub use choice::{Choice, choose};
pub use choice_error::ChoiceError;
pub use plan_error::PlanError;
pub use planning::plan_pod;
pub use pod_app::PodApp;
pub use pod_folder::pod_plan;
pub use token::token_text;
