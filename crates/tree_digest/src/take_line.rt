//! Taking the first line of a text.

ghost use Rattle.std.specs.Prelude.{◌≡◌, ◌≢◌, ◌↔◌, ◌⊎◌, ℕ, ◌+◌, ◌<◌, ◌||◌, ◌&&◌, ◌==◌, ◌++◌, ◌∷◌, List, length, IsTrue, IfOk, IfErr, IfSome, IfNone, OnOk, slice_index};
ghost use Rattle.std.specs.Ordering.{nat_cmp};
ghost use Rattle.std.specs.declared.cmp.Ordering.TheVariants.{Less};
ghost use Rattle.std.specs.Cmp.Lexicographic.{slice_cmp};
ghost use Rattle.std.specs.Str.{bytes_eq};
ghost use Rattle.std.specs.HashSet.{contains_text};
ghost use Rattle.path_map.specs.Entries.{is_directory};
ghost use Rattle.path_map.specs.Paths.{IsAbsPath, HasNone, EndsIn};
ghost use Rattle.tree_digest.specs.Lines.{line_text};
ghost use Rattle.tree_digest.specs.Listings.{last_path, has_directory, is_parent, Rises, Follows, FailsAt};
ghost use Rattle.tree_digest.specs.Steps.{FailsInOrder, FailsInLine};

use crate::line::ListingLine;
use crate::line_fault::LineFault;
use crate::listing_error::ListingError;
use crate::read_line::read_line;
use ac_types::NoMemory;
use std::alloc::Global;
use std::collections::HashSet;

/// The first line of a text after some lines, and the text after it.
pub(crate) fn take_line<'a>(
    alloc: Global,
    lines: &[ListingLine],
    directories: &HashSet<String>,
    text: &'a [u8],
) -> Result<(ListingLine, &'a [u8]), ListingError>
    requires { (q : List ℕ) → contains_text directories.now q ≡ has_directory lines.now q }
    ensures ok { IfOk result (λ p. Follows lines.now p.0 × (text.entry.now ≡ line_text p.0 ++ p.1.now)) }
    ensures fault { IfErr result (λ e. (e ≡ ListingError.NoMemory) ⊎ FailsAt lines.now text.entry.now e) }
{
    let number = lines.len() + 1;
    let Some((line, rest)) = cut_line(text) else {
        return Err(ListingError::BadLine(number));
    };
    match read_line(alloc, line) {
        Ok(line) => match order_fault(lines, directories, &line, number) {
            None => Ok((line, rest)),
            Some(error) => Err(error),
        },
        Err(fault) => Err(error_of(fault, number)),
    }
}

/// The text before the first line end, and the text after it.
#[tactic(auto, using(crate::proofs::Cuts::line_at, crate::proofs::Cuts::none_more, crate::proofs::Cuts::none_all))]
fn cut_line(text: &[u8]) -> Option<(&[u8], &[u8])>
    ensures some { IfSome result (λ p. (text.now ≡ p.0.now ++ 10 ∷ p.1.now) × HasNone 10 p.0.now) }
    ensures none { IfNone result (HasNone 10 text.now) }
{
    for (place, byte) in text.iter().enumerate() {
        if *byte == b'\n' {
            return Some((&text[..place], &text[place + 1..]));
        }
    }
    None
}

/// The error that a fault of a line is.
fn error_of(fault: LineFault, number: usize) -> ListingError
    ensures { FailsInLine fault number result }
{
    match fault {
        LineFault::Bad => ListingError::BadLine(number),
        LineFault::TooLong => ListingError::FileTooLong(number),
        LineFault::NoMemory => ListingError::NoMemory,
    }
}

/// Why a line may not follow some lines: its path doesn't rise, or its parent is missing.
fn order_fault(
    lines: &[ListingLine],
    directories: &HashSet<String>,
    line: &ListingLine,
    number: usize,
) -> Option<ListingError>
    requires { (q : List ℕ) → contains_text directories.now q ≡ has_directory lines.now q }
    ensures { FailsInOrder lines.now line.now number result }
{
    if !rises(last_path(lines), line.path.as_str()) {
        return Some(ListingError::NotSorted(number));
    }
    if !is_parent(directories, line.path.parent_text()) {
        return Some(ListingError::NoParent(number));
    }
    None
}

/// The path of the last line.
fn last_path(lines: &[ListingLine]) -> &str
    ensures { result.now ≡ last_path lines.now }
{
    match lines.last() {
        Some(line) => line.path.as_str(),
        None => "",
    }
}

/// Whether a text comes before another in byte order.
fn rises(last: &str, path: &str) -> bool
    ensures { IsTrue result ↔ (slice_cmp nat_cmp last.now path.now ≡ Less) }
{
    last < path
}

/// Whether a path is the root or one of the directories.
fn is_parent(directories: &HashSet<String>, path: &str) -> bool
    ensures { result ≡ ((length path.now == 0) || contains_text directories.now path.now) }
{
    path.is_empty() || directories.contains(path)
}

/// Adds a line's path to the directories, where it is one.
pub(crate) fn note(
    alloc: Global,
    directories: &mut HashSet<String>,
    line: &ListingLine,
) -> Result<(), NoMemory>
    ensures { OnOk result ((q : List ℕ) → contains_text directories.new q
        ≡ (contains_text directories.old q || (bytes_eq line.now.path q && is_directory line.now.entry))) }
{
    if !line.entry.is_directory() {
        return Ok(());
    }
    let path = String::from_str(alloc, line.path.as_str())?;
    directories.insert(path)?;
    Ok(())
}
