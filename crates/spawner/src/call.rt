// What a spawner is asked for, and what it answers.
use crate::words::Words;
use crate::working_directory::WorkingDirectory;
use dir_trait::{Bytes, FileName, Spot};

/// The root of an app: where its pod stands, and the app's name. The app's files are the pod's
/// `stage1/rootfs/opt/stage2/APP/rootfs`.
#[derive(Clone, Copy)]
pub struct RootPlace {
    pub spot: Spot,
    pub app: FileName,
}

/// A program that was started, as its spawner numbers it.
#[derive(Clone, Copy, Debug, PartialEq, Eq)]
pub struct Child {
    pub number: u32,
}

/// Why a spawner gave nothing.
#[derive(Clone, Copy, Debug, PartialEq, Eq)]
pub enum SpawnError {
    /// The spawner failed.
    Failed,
    /// Memory ran out.
    NoMemory,
}

/// What a spawner is asked for.
#[derive(Drop)]
pub enum SpawnRequest {
    /// That the links and the modes of a listing stand in a root.
    Ready {
        root: RootPlace,
        listing: Bytes,
    },
    /// That a program starts.
    Start {
        root: RootPlace,
        argv: Words,
        env: Words,
        cwd: WorkingDirectory,
    },
    /// How a program ends.
    Wait(Child),
}

/// What a spawner answers.
#[derive(Clone, Copy, Debug, PartialEq, Eq)]
pub enum SpawnReply {
    /// All stands as asked.
    Done,
    /// The program was started.
    Started(Child),
    /// The program ended with this status.
    Ended(u8),
    /// Nothing was had.
    Refused(SpawnError),
}

/// One call of a spawner.
#[derive(Drop)]
pub struct SpawnCall {
    pub request: SpawnRequest,
    pub reply: SpawnReply,
}
