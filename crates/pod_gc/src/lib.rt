//! Removes pods, one (`remove_pod`) or all that are dead (`gc`, six passes, one for each place in lifecycle
//! order): brings a pod that nobody holds to a garbage place by the steps that its place allows, and deletes it
//! there, among the events of other processes.
#![tactic(auto)]

mod ages;
mod aside;
mod attempt;
mod deals;
mod deletion;
mod gc_error;
mod kept;
mod line;
mod passes;
mod prepared;
mod removal;
mod remove_error;
mod sweeping;

pub use ages::Times;
pub use aside::put_dead_aside;
pub use deletion::delete_at;
pub use gc_error::GcError;
pub use line::{Deed, GcLine};
pub use prepared::discard_prepared;
pub use removal::remove_pod;
pub use remove_error::RemoveError;
pub use sweeping::gc;
