// What a process knows by its own answers.
use crate::standing::Standing;
use dir_model::{Area, Bytes, Inner, ItemKind, Name, Names, Sequence, Spot, TreeNode};

/// What a change left at a path. A file has an empty piece when it is made, and one more for each
/// append.
#[derive(Drop)]
pub struct Entry {
    pub path: Bytes,
    pub node: TreeNode,
}

/// The folder that the process made.
#[derive(Drop)]
pub struct Making {
    /// To where its last own make or move brought it.
    pub spot: Spot,
    /// Each change in it was answered Ok.
    pub clean: bool,
    /// What was made and appended, the oldest first.
    pub entries: Sequence<Entry>,
    /// The files with an append, and the directories with a name, that isn't synced yet.
    pub unsynced: Sequence<Bytes>,
}

/// A `created-` mark that a listing of a pod's folder showed.
#[derive(Clone, Copy)]
pub struct Created {
    pub name: Name,
    pub moment: u64,
}

/// An item that the last listing of its directory showed, and that the process hasn't removed since.
#[derive(Drop)]
pub struct ShownItem {
    pub inner: Inner,
    pub kind: ItemKind,
}

/// An area that was listed under its lock held exclusively, with the folders that it showed and that
/// the process has neither moved nor removed since.
#[derive(Drop)]
pub struct ShownArea {
    pub area: Area,
    pub names: Names,
}

/// What a process knows by its own answers, as far as the rules ask for it.
#[derive(Drop)]
pub struct Seen {
    /// Of locks and places.
    pub standing: Standing,
    pub making: Option<Making>,
    /// The image that it made stands in incoming, and it has held that area's lock since before.
    pub image_under_lock: bool,
    /// What listings of pods' folders showed. It only grows.
    pub created: Sequence<Created>,
    /// Pods in run that it marked after it had their own lock shared.
    pub marked: Sequence<Spot>,
    /// The files that it made in pods in run.
    pub notes: Sequence<Inner>,
    /// The folders that it moved into removed, and hasn't removed there.
    pub put_away: Sequence<Spot>,
    /// The directories that it listed under the lock that a removal there needs, which it has held
    /// since.
    pub listed: Sequence<Inner>,
    /// What those listings showed.
    pub items: Sequence<ShownItem>,
    pub areas: Sequence<ShownArea>,
    /// Each request so far was allowed.
    pub kept: bool,
}
