//! The shared data folder: its places and names, its trace, and the state that a trace leaves.
#![tactic(auto)]

mod area;
mod event;
mod file_name;
mod fill;
mod history;
mod intent;
mod item;
mod memory;
mod name;
mod opening;
mod path;
mod pod;
mod prefix;
mod request;
mod sequence;
mod spot;
mod tree;

pub use area::{Area, Phase, phase_of};
pub use event::Event;
pub use file_name::FileName;
pub use history::{History, Reserved};
pub use intent::{Draw, Intent, Kind, Start};
pub use item::{Inner, Item, ItemKind};
pub use memory::NoMemory;
pub use name::Name;
pub use opening::{Holding, Opening, Target};
pub use path::{file_name_of, is_path, lies_below};
pub use pod::PodId;
pub use prefix::PodPrefix;
pub use request::{DirError, Reply, Request};
pub use sequence::{Bytes, Items, Names, Sequence};
pub use spot::{Handle, Mode, Spot, Which};
pub use tree::{Listed, OpenListing, StartedApp, TreeEntry, TreeNode};
