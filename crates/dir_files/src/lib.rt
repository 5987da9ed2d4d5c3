//! Whole files and folders of a data folder, and the locks of its areas: the bytes of a file, what a listing
//! shows, and how an area's lock is taken and given back.
#![tactic(auto)]

mod file;
mod listing;
mod lock;
mod lock_error;

pub use file::{ReadError, read_file};
pub use listing::{items_of, names_of};
pub use lock::{lock_area, unlock_area};
pub use lock_error::LockError;
