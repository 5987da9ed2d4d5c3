//! The listings of maps, and the maps of listings.

ghost use Rattle.std.specs.Prelude.{◌≡◌, ◌≤◌, ◌<◌, ◌↔◌, ◌⊎◌, ℕ, List, [], length, IsTrue, IfOk, IfErr};
ghost use Rattle.std.specs.List.{All};
ghost use Rattle.path_map.specs.declared.entry.Meta.{Meta};
ghost use Rattle.path_map.specs.Entries.{entry_at};
ghost use Rattle.tree_digest.specs.Lines.{IsMeta, IsEntry, mode_of};
ghost use Rattle.tree_digest.specs.Listings.{listing_text, entries_of, lines_of, IsListable, AreListable, IsTooLarge, AllFollow};

use crate::escapes::is_target;
use crate::line::ListingLine;
use crate::listing::Listing;
use crate::listing_error::ListingError;
use crate::read_fields::fit_bytes;
use crate::refusals::{MAX_BYTES, MAX_FILE, MAX_LINES};
use ac_types::NoMemory;
use path_map::{Entry, Meta, PathMap};
use std::alloc::Global;

/// Whether an entry may stand in a listing: its mode has four octal digits, its file at
/// most 1 GiB, its target 1 to 4,095 bytes without NUL.
pub fn is_listable(entry: &Entry) -> bool
    ensures { IsTrue result ↔ IsListable entry.now }
{
    match entry {
        Entry::Dir(meta) => meta.mode < 4096,
        Entry::File { meta, size, .. } => meta.mode < 4096 && *size <= MAX_FILE,
        Entry::Link { meta, target } => meta.mode < 4096 && is_target(target.as_str()),
    }
}

/// Whether each entry of a map may stand in a listing.
pub fn are_listable(map: &PathMap) -> bool
    ensures { IsTrue result ↔ AreListable (entry_at map.now) }
{
    for (_path, entry) in map.iter() {
        if !is_listable(entry) {
            return false;
        }
    }
    true
}

impl Listing {
    /// The listing of the entries of a map. `TooMany` where there are more than 65,536
    /// of them, or else where their text has more than 33,554,432 bytes.
    pub fn of_map(alloc: Global, map: &PathMap) -> Result<Listing, ListingError>
        requires { AreListable (entry_at map.now) }
        ensures ok { IfOk result (λ listing. listing ≡ lines_of map.now) }
        ensures fault { IfErr result (λ e. (e ≡ ListingError.NoMemory) ⊎ IsTooLarge (lines_of map.now) e) }
    {
        let lines = copied_lines(alloc, map)?;
        if lines.len() > MAX_LINES {
            return Err(ListingError::TooMany(MAX_LINES as u64));
        }
        if !text_fits(alloc, &lines)? {
            return Err(ListingError::TooMany(MAX_BYTES as u64));
        }
        Ok(Listing::new(alloc, lines))
    }

    /// The map of the same entries.
    pub fn to_map(&self, alloc: Global) -> Result<PathMap, NoMemory>
        ensures map { IfOk result (λ map. map ≡ entries_of self.now) }
        ensures listable { IfOk result (λ map. AreListable (entry_at map)) }
    {
        let lines = self.as_slice();
        let mut map = PathMap::new(alloc);
        for line in lines {
            map = map.overlay(alloc, line.path.copy()?, line.entry.copy()?)?;
        }
        // The clause of `iter` says that its paths rise.
        let _entries = map.iter();
        Ok(map)
    }
}

/// The lines of the entries of a map, each after those that it may follow.
fn copied_lines(alloc: Global, map: &PathMap) -> Result<Vec<ListingLine>, NoMemory>
    requires { AreListable (entry_at map.now) }
    ensures lines { IfOk result (λ lines. lines.items ≡ lines_of map.now) }
    ensures follow { IfOk result (λ lines. AllFollow [] lines.items) }
{
    let mut lines = Vec::new(alloc);
    for (path, entry) in map.iter() {
        lines.push(ListingLine {
            path: path.copy()?,
            entry: fitting(entry.copy()?),
        })?;
    }
    Ok(lines)
}

/// The entry, whose fields fit their types.
fn fitting(entry: Entry) -> Entry
    ensures entry { result ≡ entry }
    ensures fits { IsListable entry → IsEntry entry }
{
    match &entry {
        Entry::Dir(meta) => fit_meta(*meta),
        Entry::File { meta, sha, .. } => {
            fit_meta(*meta);
            fit_bytes(sha);
        }
        Entry::Link { meta, target } => {
            fit_meta(*meta);
            let _text = target.as_str();
        }
    }
    entry
}

/// Owners are below 2 ^ 32, as the clause says.
fn fit_meta(meta: Meta)
    ensures { meta.mode < 4096 → IsMeta meta }
{
    let _owners = (meta.uid, meta.gid);
}

/// Whether the text of some lines has at most 33,554,432 bytes.
fn text_fits(alloc: Global, lines: &[ListingLine]) -> Result<bool, NoMemory>
    requires { All (λ line. mode_of line.entry < 4096) lines.now }
    ensures { IfOk result (λ fits. IsTrue fits ↔ (length (listing_text lines.now) ≤ MAX_BYTES)) }
{
    let mut total = 0;
    for line in lines {
        let bytes = line.text_len(alloc)?;
        if bytes > MAX_BYTES - total {
            return Ok(false);
        }
        total += bytes;
    }
    Ok(true)
}
