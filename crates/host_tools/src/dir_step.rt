// The calls as words name them.
use crate::dir_calls::{FolderCall, InnerCall};
use crate::dir_words::{area_of, folder_call, inner_call, mode_of, spot_of, target_of};
use dir_trait::{Area, Mode, Spot, Target};

/// One call, or that the program waits.
#[derive(Clone, Copy)]
pub enum Step<'a> {
    /// Waits until the standard input ends.
    Hold,
    /// Tells how many calls have failed.
    Faults,
    /// Opens and asks for the lock. The handle stays open, or is closed at once.
    Lock {
        target: Target,
        mode: Mode,
        stays: bool,
    },
    ListArea(Area),
    SyncArea(Area),
    OnFolder {
        call: FolderCall,
        spot: Spot,
    },
    Move {
        from: Spot,
        to: Spot,
    },
    List {
        spot: Spot,
        path: &'a str,
    },
    OnInner {
        call: InnerCall,
        spot: Spot,
        path: &'a str,
    },
    Append {
        spot: Spot,
        path: &'a str,
        text: &'a str,
    },
    /// Reads the first bytes of a file, so many at most.
    Read {
        spot: Spot,
        path: &'a str,
        size: usize,
    },
    /// Reads a file to its end by pieces of this size.
    Copy {
        spot: Spot,
        path: &'a str,
        size: usize,
    },
}

/// `list AREA`, `sync AREA`.
fn area_step<'a>(verb: &str, area: &str) -> Option<Step<'a>> {
    let area = area_of(area)?;
    match verb {
        "list" => Some(Step::ListArea(area)),
        "sync" => Some(Step::SyncArea(area)),
        _ => None,
    }
}

/// `lock MODE area AREA` and so on. `try` closes the handle at once.
fn lock_step<'a>(verb: &str, mode: &str, target: Target) -> Option<Step<'a>> {
    let mode = mode_of(mode)?;
    match verb {
        "lock" => Some(Step::Lock {
            target,
            mode,
            stays: true,
        }),
        "try" => Some(Step::Lock {
            target,
            mode,
            stays: false,
        }),
        _ => None,
    }
}

/// `list AREA NAME PATH`, `make-dir AREA NAME PATH` and so on.
fn inner_step<'a>(verb: &str, spot: Spot, path: &'a str) -> Option<Step<'a>> {
    match verb {
        "list" => Some(Step::List { spot, path }),
        _ => {
            let call = inner_call(verb)?;
            Some(Step::OnInner { call, spot, path })
        }
    }
}

/// A call with five words.
fn long_step<'a>(words: [&'a str; 5]) -> Option<Step<'a>> {
    let [verb, area, name, path, last] = words;
    match verb {
        "lock" | "try" => lock_step(verb, area, target_of(name, spot_of(path, last)?)?),
        "move" => Some(Step::Move {
            from: spot_of(area, name)?,
            to: spot_of(path, last)?,
        }),
        "append" => Some(Step::Append {
            spot: spot_of(area, name)?,
            path,
            text: last,
        }),
        "read" => Some(Step::Read {
            spot: spot_of(area, name)?,
            path,
            size: last.parse::<usize>().ok()?,
        }),
        "copy" => Some(Step::Copy {
            spot: spot_of(area, name)?,
            path,
            size: last.parse::<usize>().ok()?,
        }),
        _ => None,
    }
}

/// The call that the words name.
pub fn step_of<'a>(words: &[&'a str]) -> Option<Step<'a>> {
    match words {
        ["hold"] => Some(Step::Hold),
        ["faults"] => Some(Step::Faults),
        [verb, area] => area_step(verb, area),
        [verb, area, name] => Some(Step::OnFolder {
            call: folder_call(verb)?,
            spot: spot_of(area, name)?,
        }),
        [verb, mode, _, area] if mode_of(mode).is_some() => {
            lock_step(verb, mode, Target::Gate(area_of(area)?))
        }
        [verb, area, name, path] => inner_step(verb, spot_of(area, name)?, path),
        [verb, area, name, path, last] => long_step([verb, area, name, path, last]),
        _ => None,
    }
}
