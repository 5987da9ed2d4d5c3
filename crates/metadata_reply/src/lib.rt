//! The replies of the metadata service to requests that were read.
#![tactic(auto)]

mod annotations;
mod answering;
mod bytes;
mod forms;
mod lookup;
mod reply;
mod resource;
mod signing;
mod target;
mod view;
mod views;

pub use answering::answer;
pub use bytes::reply_bytes;
pub use reply::{Allow, Media, Reply};
pub use target::token_of;
pub use view::{ImageBytes, ImagesBytes, PodView};
