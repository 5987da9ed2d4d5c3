//! The names of marks, made and read, and the moments that they tell; and the paths and places of which the local
//! rules speak.
#![tactic(auto)]

mod list;
mod mark;
mod moment;
mod path;
mod place;
mod text;

pub use list::{is_empty, push_front};
pub use mark::{is_below_status, is_later_mark, is_mark, is_started_mark, is_status_file};
pub use moment::{created_moment, later, moment_of};
pub use path::{has_slash, parent, path_in};
pub use place::{is_garbage, is_in, is_of, is_stage, same_inner, same_spot};
pub use text::mark_text;
