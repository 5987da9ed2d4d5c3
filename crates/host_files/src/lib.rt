//! What a host's file system is asked for the data folder and for bundles of files, and what its answers mean.
#![tactic(auto)]

mod apps;
mod asks;
mod files;
mod folders;
mod inside;
mod leftovers;
mod links;
mod listings;
mod looks;
mod place;
mod refusals;

pub use apps::Started;
pub use asks::make_area_at;
pub use files::{OpenedFile, Shows, list_folder, read_file, read_target};
pub use folders::{make_folder, make_root, move_folder, open_area, remove_folder, sync_area};
pub use inside::{
    append, for_reading, make_dir, make_file, open_dir, open_regular, read, remove_dir,
    remove_file, sync,
};
pub use links::list_bundle;
pub use listings::{list_area, list_inside};
pub use looks::Reached;
pub use place::{AREAS, join, path_of_area};
pub use refusals::fault;
