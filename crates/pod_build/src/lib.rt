//! Prepares a pod in a shared data folder, of images of the store that are read under their area's lock: its
//! folder is built where readers see it only as an embryo, filled in prepare, and handed over to prepared or to
//! run. A pod is made as a whole or not at all.
#![tactic(auto)]

mod built;
mod embryo;
mod error;
mod filling;
mod make_error;
mod making;
mod origin;
mod place;
mod preparing;

pub use built::Built;
pub use error::BuildError;
pub use make_error::MakeError;
pub use making::{make_prepared, make_running};
pub use preparing::prepare;
