//! What starts the programs of apps on a host.
#![tactic(auto)]

mod children;
mod commands;
mod host;
mod layout;
mod place;
mod refusals;
mod standing;
mod system;

pub use host::{HostSpawner, SystemSpawner};
pub use standing::Standing;
pub use system::{HostSystem, System};
