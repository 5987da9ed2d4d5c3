// What a process knows, as lists that change.
use dir_model::{Bytes, Inner, Name, Spot};
use dir_rules::{Entry, ShownArea, ShownItem};
use lock_rules::StandingTable;

/// The folder that the process made.
#[derive(Drop)]
pub struct MakingTable {
    pub spot: Spot,
    pub clean: bool,
    pub entries: Vec<Entry>,
    pub unsynced: Vec<Bytes>,
}

/// A `created-` mark that a listing of a pod's folder showed.
#[derive(Clone, Copy)]
pub struct CreatedMark {
    pub name: Name,
    pub moment: u64,
}

/// What a process knows beside locks and places.
#[derive(Drop)]
pub struct ContentsTable {
    pub making: Option<MakingTable>,
    pub image_under_lock: bool,
    pub created: Vec<CreatedMark>,
    pub marked: Vec<Spot>,
    pub notes: Vec<Inner>,
    pub put_away: Vec<Spot>,
    pub listed: Vec<Inner>,
    pub items: Vec<ShownItem>,
    pub areas: Vec<ShownArea>,
    pub kept: bool,
}

/// What a process knows by its own answers.
#[derive(Drop)]
pub struct SeenTable {
    pub standing: StandingTable,
    pub contents: ContentsTable,
}
