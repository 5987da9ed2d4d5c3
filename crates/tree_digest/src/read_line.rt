//! Reading a line.

ghost use Rattle.std.specs.Prelude.{◌≡◌, ◌∷◌};
ghost use Rattle.tree_digest.specs.Steps.{ReadsLine};

use crate::escapes::{read_path, read_target};
use crate::line::ListingLine;
use crate::line_fault::{LineFault, line_fault};
use crate::read_fields::{cut, read_meta, read_number, read_sha};
use crate::refusals::MAX_FILE;
use path_map::Entry;
use std::alloc::Global;

/// The line that a text without its end is.
pub(crate) fn read_line(alloc: Global, text: &[u8]) -> Result<ListingLine, LineFault>
    ensures { ReadsLine text.now result }
{
    match text {
        [b'd', b' ', rest @ ..] => read_directory(alloc, rest),
        [b'f', b' ', rest @ ..] => read_file(alloc, rest),
        [b'l', b' ', rest @ ..] => read_link(alloc, rest),
        _ => Err(LineFault::Bad),
    }
}

/// The line of a directory.
fn read_directory(alloc: Global, text: &[u8]) -> Result<ListingLine, LineFault>
    ensures { ReadsLine (100 ∷ 32 ∷ text.now) result }
{
    let Some((meta, rest)) = read_meta(text) else {
        return Err(LineFault::Bad);
    };
    match read_path(alloc, rest) {
        Ok(path) => Ok(ListingLine {
            path,
            entry: Entry::Dir(meta),
        }),
        Err(fault) => Err(line_fault(fault)),
    }
}

/// The line of a file.
fn read_file(alloc: Global, text: &[u8]) -> Result<ListingLine, LineFault>
    ensures { ReadsLine (102 ∷ 32 ∷ text.now) result }
{
    let Some((meta, sizes)) = read_meta(text) else {
        return Err(LineFault::Bad);
    };
    let Some((size, digits)) = read_number(sizes) else {
        return Err(LineFault::Bad);
    };
    let Some(found) = read_sha(digits) else {
        return Err(LineFault::Bad);
    };
    match read_path(alloc, found.1) {
        Ok(path) => {
            let sha = found.0;
            if size > MAX_FILE {
                return Err(LineFault::TooLong);
            }
            Ok(ListingLine {
                path,
                entry: Entry::File { meta, size, sha },
            })
        }
        Err(fault) => Err(line_fault(fault)),
    }
}

/// The line of a link.
fn read_link(alloc: Global, text: &[u8]) -> Result<ListingLine, LineFault>
    ensures { ReadsLine (108 ∷ 32 ∷ text.now) result }
{
    let Some((meta, targets)) = read_meta(text) else {
        return Err(LineFault::Bad);
    };
    let Some((field, rest)) = cut(targets) else {
        return Err(LineFault::Bad);
    };
    match read_target(alloc, field) {
        Ok(target) => match read_path(alloc, rest) {
            Ok(path) => Ok(ListingLine {
                path,
                entry: Entry::Link { meta, target },
            }),
            Err(fault) => Err(line_fault(fault)),
        },
        Err(fault) => Err(line_fault(fault)),
    }
}
