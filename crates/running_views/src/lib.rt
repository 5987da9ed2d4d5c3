//! Where nobody else steps, the pod that the metadata service finds for a token is told by the state before, and so is each reply.
#![tactic(auto)]

mod laws;

pub use laws::{found, one_reply, replied, served};
