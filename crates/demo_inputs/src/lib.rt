//! What the commands of the demo are given: what is drawn for them, the bundles of its images, and how its apps end.
#![tactic(auto)]

mod bundle;
mod draw;
mod end;
mod manifest;

pub use bundle::image_bundle;
pub use draw::{command_draw, pod_draw};
pub use end::app_spawner;
pub use manifest::demo_name;
