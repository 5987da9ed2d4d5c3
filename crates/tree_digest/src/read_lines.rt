//! Reading the lines of a text.

ghost use Rattle.std.specs.Prelude.{◌≡◌, ◌⊎◌, ◌++◌, ◌∷◌, [], ℕ, List, length, IfOk, IfErr, OnOk, MatchOption, slice_index, ◌==◌, ◌||◌, ◌-◌};
ghost use Rattle.std.specs.HashSet.{contains_text};
ghost use Rattle.tree_digest.specs.Listings.{listing_text, has_directory, AllFollow, StopsAt, IsTooMany, Fits, line_count};

use crate::line::ListingLine;
use crate::listing_error::ListingError;
use crate::refusals::{MAX_BYTES, MAX_LINES};
use crate::take_line::{note, take_line};
use ac_types::NoMemory;
use std::alloc::Global;
use std::collections::HashSet;

/// The lines of a text, each after those that it may follow.
pub(crate) fn read_lines(alloc: Global, bytes: &[u8]) -> Result<Vec<ListingLine>, ListingError>
    ensures ok { IfOk result (λ lines. AllFollow [] lines.items × (bytes.now ≡ listing_text lines.items)) }
    ensures fault { IfErr result (λ e. (e ≡ ListingError.NoMemory) ⊎ StopsAt bytes.now e) }
{
    let mut lines = Vec::new(alloc);
    let mut directories = HashSet::new(alloc);
    let mut rest = bytes;
    while !rest.is_empty() {
        match take_line(alloc, &lines, &directories, rest) {
            Ok((line, more)) => {
                add(alloc, &mut lines, &mut directories, line)?;
                rest = more;
            }
            Err(error) => return Err(error),
        }
    }
    Ok(lines)
}

/// Adds a line to the lines and to their directories.
fn add(
    alloc: Global,
    lines: &mut Vec<ListingLine>,
    directories: &mut HashSet<String>,
    line: ListingLine,
) -> Result<(), NoMemory>
    requires { (q : List ℕ) → contains_text directories.old q ≡ has_directory lines.old.items q }
    ensures lines { OnOk result (lines.new.items ≡ lines.old.items ++ line ∷ []) }
    ensures directories { OnOk result ((q : List ℕ) → contains_text directories.new q ≡ has_directory lines.new.items q) }
{
    note(alloc, directories, &line)?;
    lines.push(line)?;
    Ok(())
}

/// Whether a text has too many lines or bytes.
pub(crate) fn limit_fault(bytes: &[u8]) -> Option<ListingError>
    ensures { MatchOption result (Fits bytes.now) (IsTooMany bytes.now) }
{
    if line_count(bytes) > MAX_LINES {
        return Some(ListingError::TooMany(MAX_LINES as u64));
    }
    if bytes.len() > MAX_BYTES {
        return Some(ListingError::TooMany(MAX_BYTES as u64));
    }
    None
}

/// How many lines a text has; a last one without an end counts.
fn line_count(bytes: &[u8]) -> usize
    ensures { result ≡ line_count bytes.now }
{
    let ends = bytes.iter().filter(|b| **b == b'\n').count();
    if is_ended(bytes) { ends } else { ends + 1 }
}

/// Whether a text is empty or ends with a line end.
fn is_ended(bytes: &[u8]) -> bool
    ensures { result ≡ ((length bytes.now == 0) || (slice_index bytes.now (length bytes.now - 1) == 10)) }
{
    bytes.is_empty() || bytes[bytes.len() - 1] == b'\n'
}
