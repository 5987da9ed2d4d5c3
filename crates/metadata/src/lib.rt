//! The metadata service: the view of a pod that runs, by its token, and the serving of one connection.
#![tactic(auto)]

mod connection;
mod error;
mod files;
mod find;
mod image;
mod running;
mod service;
mod token;

pub use connection::serve_one;
pub use error::MetaError;
pub use find::find_pod;
pub use service::serve;
