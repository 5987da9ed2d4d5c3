// The words of a call.
use crate::dir_calls::{FolderCall, InnerCall};
use dir_trait::{Area, DirError, ItemKind, Mode, Name, Spot, Target};

/// An area by the last part of its place.
pub fn area_of(word: &str) -> Option<Area> {
    match word {
        "embryo" => Some(Area::Embryo),
        "prepare" => Some(Area::Prepare),
        "prepared" => Some(Area::Prepared),
        "run" => Some(Area::Run),
        "exited-garbage" => Some(Area::ExitedGarbage),
        "garbage" => Some(Area::Garbage),
        "incoming" => Some(Area::Incoming),
        "images" => Some(Area::Images),
        "trees" => Some(Area::Trees),
        "removed" => Some(Area::Removed),
        _ => None,
    }
}

/// A folder by its area and its name.
pub fn spot_of(area: &str, name: &str) -> Option<Spot> {
    let area = area_of(area)?;
    let name = Name::of(name)?;
    Some(Spot { area, name })
}

/// How a lock is asked for.
pub fn mode_of(word: &str) -> Option<Mode> {
    match word {
        "shared" => Some(Mode::Shared),
        "exclusive" => Some(Mode::Exclusive),
        _ => None,
    }
}

/// What is locked: the lock of a folder or its activation lock.
pub fn target_of(kind: &str, spot: Spot) -> Option<Target> {
    match kind {
        "own" => Some(Target::Own(spot)),
        "claim" => Some(Target::Claim(spot)),
        _ => None,
    }
}

/// What is done to a folder.
pub fn folder_call(word: &str) -> Option<FolderCall> {
    match word {
        "make" => Some(FolderCall::Make),
        "remove" => Some(FolderCall::Remove),
        _ => None,
    }
}

/// What is done to something in a folder.
pub fn inner_call(word: &str) -> Option<InnerCall> {
    match word {
        "make-dir" => Some(InnerCall::MakeDir),
        "make-file" => Some(InnerCall::MakeFile),
        "sync" => Some(InnerCall::Sync),
        "remove-file" => Some(InnerCall::RemoveFile),
        "remove-dir" => Some(InnerCall::RemoveDir),
        _ => None,
    }
}

/// What is printed of an answer.
pub fn answer_text(answer: Result<(), DirError>) -> &'static str {
    match answer {
        Ok(()) => "ok",
        Err(DirError::Missing) => "missing",
        Err(DirError::Exists) => "exists",
        Err(DirError::NotEmpty) => "not empty",
        Err(DirError::Locked) => "locked",
        Err(DirError::Failed) => "failed",
        Err(DirError::NoMemory) => "no memory",
    }
}

/// What is printed of a kind.
pub fn kind_text(kind: ItemKind) -> &'static str {
    match kind {
        ItemKind::Dir => "dir",
        ItemKind::File => "file",
        ItemKind::Other => "other",
    }
}
