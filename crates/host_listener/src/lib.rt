//! What hands over the connections of a service on a host.
#![tactic(auto)]

mod connection;
mod host;
mod network;
mod refusals;

pub use connection::PATIENCE;
pub use host::{HostListener, SystemListener};
pub use network::{HostNetwork, Network};
