//! Takes images away from the store of a shared data folder, and sweeps what dead processes left there.
#![tactic(auto)]

mod deletion;
mod error;
mod look;
mod pass;
mod place;
mod putting;
mod removal;
mod sweeping;

pub use image_reading::StoreError;
pub use pass::{Pass, SweepLine};
pub use removal::remove;
pub use sweeping::sweep;
