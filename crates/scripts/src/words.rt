// What single words name.
use crate::page::Page;
use crate::refusal::Unread;
use dir_model::{Area, DirError, ItemKind, Kind, Mode, Name, Phase, PodId, Spot, Which};

const AREAS: [Area; 10] = [
    Area::Embryo,
    Area::Prepare,
    Area::Prepared,
    Area::Run,
    Area::ExitedGarbage,
    Area::Garbage,
    Area::Incoming,
    Area::Images,
    Area::Trees,
    Area::Removed,
];

/// The word of an area.
pub fn area_text(area: Area) -> &'static str {
    match area {
        Area::Embryo => "embryo",
        Area::Prepare => "prepare",
        Area::Prepared => "prepared",
        Area::Run => "run",
        Area::ExitedGarbage => "exited-garbage",
        Area::Garbage => "garbage",
        Area::Incoming => "incoming",
        Area::Images => "images",
        Area::Trees => "trees",
        Area::Removed => "removed",
    }
}

/// An area by its word. Refused where the word names none.
pub fn area_of(page: &mut Page, word: &str) -> Area {
    for area in AREAS {
        if area_text(area) == word {
            return area;
        }
    }
    page.unread(Unread::Word);
    Area::Embryo
}

const KINDS: [Kind; 13] = [
    Kind::Status,
    Kind::List,
    Kind::Prepare,
    Kind::Run,
    Kind::RunPrepared,
    Kind::Rm,
    Kind::Gc,
    Kind::CatManifest,
    Kind::ImageImport,
    Kind::ImageList,
    Kind::ImageRm,
    Kind::ImageGc,
    Kind::Metadata,
];

/// The word of what a process is for.
pub fn kind_text(kind: Kind) -> &'static str {
    match kind {
        Kind::Status => "status",
        Kind::List => "list",
        Kind::Prepare => "prepare",
        Kind::Run => "run",
        Kind::RunPrepared => "run-prepared",
        Kind::Rm => "rm",
        Kind::Gc => "gc",
        Kind::CatManifest => "cat-manifest",
        Kind::ImageImport => "image-import",
        Kind::ImageList => "image-list",
        Kind::ImageRm => "image-rm",
        Kind::ImageGc => "image-gc",
        Kind::Metadata => "metadata-service",
    }
}

/// What a process is for, by the word of its command. Refused where the word names none.
pub fn kind_of(page: &mut Page, word: &str) -> Kind {
    for kind in KINDS {
        if kind_text(kind) == word {
            return kind;
        }
    }
    page.unread(Unread::Word);
    Kind::Status
}

/// How a lock is asked for: `shared` or `exclusive`. Refused for any other word.
pub fn mode_of(page: &mut Page, word: &str) -> Mode {
    match word {
        "shared" => return Mode::Shared,
        "exclusive" => (),
        _ => page.unread(Unread::Word),
    }
    Mode::Exclusive
}

/// The word of how a lock is asked for.
pub fn mode_text(mode: Mode) -> &'static str {
    match mode {
        Mode::Shared => "shared",
        Mode::Exclusive => "exclusive",
    }
}

/// Which lock of a folder: `own` or `claim`. Refused for any other word.
pub fn which_of(page: &mut Page, word: &str) -> Which {
    match word {
        "own" => return Which::Own,
        "claim" => (),
        _ => page.unread(Unread::Word),
    }
    Which::Claim
}

/// The word of a lock of a folder.
pub fn which_text(which: Which) -> &'static str {
    match which {
        Which::Own => "own",
        Which::Claim => "claim",
    }
}

/// A pod by its text. Refused where the word is none.
pub fn pod_of(page: &mut Page, word: &str) -> PodId {
    if let Some(pod) = PodId::parse(word) {
        return pod;
    }
    page.unread(Unread::Name);
    PodId { bytes: [0; 16] }
}

/// The name of a folder. Refused where the word is none.
pub fn name_of(page: &mut Page, word: &str) -> Name {
    if let Some(name) = Name::of(word) {
        return name;
    }
    page.unread(Unread::Name);
    PodId { bytes: [0; 16] }.name()
}

/// The folder of that name in an area. Refused where the words name none.
pub fn spot_of(page: &mut Page, area: &str, name: &str) -> Spot {
    let area = area_of(page, area);
    let name = name_of(page, name);
    Spot { area, name }
}

/// A phase as it is printed; `none` where there is no pod.
pub fn phase_text(phase: Option<Phase>) -> &'static str {
    match phase {
        Some(phase) => phase.name(),
        None => "none",
    }
}

const ERRORS: [DirError; 6] = [
    DirError::Missing,
    DirError::Exists,
    DirError::NotEmpty,
    DirError::Locked,
    DirError::Failed,
    DirError::NoMemory,
];

/// The word of why a call was refused.
pub fn error_text(error: DirError) -> &'static str {
    match error {
        DirError::Missing => "missing",
        DirError::Exists => "exists",
        DirError::NotEmpty => "not-empty",
        DirError::Locked => "locked",
        DirError::Failed => "failed",
        DirError::NoMemory => "no-memory",
    }
}

/// Why a call was refused, by its word. Refused where the word names no cause.
pub fn error_of(page: &mut Page, word: &str) -> DirError {
    for error in ERRORS {
        if error_text(error) == word {
            return error;
        }
    }
    page.unread(Unread::Word);
    DirError::Failed
}

/// What kind of thing stands somewhere: `dir`, `file` or `other`. Refused for any other word.
pub fn item_kind_of(page: &mut Page, word: &str) -> ItemKind {
    match word {
        "dir" => return ItemKind::Dir,
        "file" => return ItemKind::File,
        "other" => (),
        _ => page.unread(Unread::Word),
    }
    ItemKind::Other
}

/// The word of what kind of thing stands somewhere.
pub fn item_kind_text(kind: ItemKind) -> &'static str {
    match kind {
        ItemKind::Dir => "dir",
        ItemKind::File => "file",
        ItemKind::Other => "other",
    }
}
