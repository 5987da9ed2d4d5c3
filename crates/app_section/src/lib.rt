//! The app's section of both manifests: its types, its reading and its writing.
#![tactic(auto)]

pub mod app;
mod app_fields;
pub mod element_lists;
mod element_values;
pub mod env_var;
mod exec;
pub mod group_ids;
pub mod handler;
pub mod isolator;
pub mod mount_point;
pub mod object_builder;
mod places;
pub mod port;
pub mod to_json;
mod whole_numbers;
pub mod written_app;

pub use app::App;
pub use element_lists::{list_of, named_list_of};
pub use env_var::{EnvVar, EnvVars};
pub use group_ids::GroupIds;
pub use handler::{Handler, HandlerKind, Handlers};
pub use isolator::{Isolator, Isolators};
pub use mount_point::{MountPoint, MountPoints};
pub use object_builder::ObjectBuilder;
pub use places::{optional_place, place_text, required_place};
pub use port::{Port, Ports};
pub use to_json::{ToJson, json_of_each};
pub use written_app::with_isolators;
