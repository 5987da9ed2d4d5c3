//! What a process read of the store of images, while it had the lock of their area, stood there together at one moment.
#![tactic(auto)]

mod laws;

pub use laws::{images, one_damage, one_store, unchanged};
