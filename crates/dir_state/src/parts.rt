// The parts of a directory's state as data.
ghost use Rattle.std.specs.Prelude.{◌+◌, ◌≤◌, vec_len, vec_capacity};

use crate::namespace::NamespaceTable;
use dir_model::{OpenListing, StartedApp, TreeEntry};

/// What stands inside the folders, the started apps and the open listings, and for how many more
/// entries and apps there is room.
#[derive(Drop)]
pub struct TreeTable {
    pub entries: Vec<TreeEntry>,
    pub apps: Vec<StartedApp>,
    pub listings: Vec<OpenListing>,
    pub spare: usize,
    ghost entries_fit: { vec_len entries + spare ≤ vec_capacity entries },
    ghost apps_fit: { vec_len apps + spare ≤ vec_capacity apps },
}

/// What an event brings to the trees and the listings, made before it comes: the entry and the app,
/// where there is one, and all listings, where some of them change.
#[derive(Drop)]
pub struct Brought {
    pub entry: Option<TreeEntry>,
    pub app: Option<StartedApp>,
    pub listings: Option<Vec<OpenListing>>,
}

/// The state of a data folder.
#[derive(Drop)]
pub struct Table {
    pub namespace: NamespaceTable,
    pub trees: TreeTable,
}
