// The links and the modes of a listing, in a root where its directories and files stand. Behind the
// pod's folder no link is followed: each directory is looked at before what stands in it.
ghost use Rattle.std.specs.Prelude.{◌≡◌, ◌<◌, ◌≤◌, ◌++◌, ◌∷◌, [], true, get_or, take, length, reverse, OnOk};
ghost use Rattle.std.specs.List.{flat_map};
ghost use Rattle.host_spawner.specs.Facts.{stands, links, has_mode};
ghost use Rattle.host_spawner.specs.Layout.{opened_to_owner, opening, linking, closing, laying, step_at, way, IsRootReady};
ghost use Rattle.host_spawner.specs.Roots.{below_root};

use crate::place::{path_below, path_of_pod, path_of_root};
use crate::refusals::{no_listing, refusal, short};
use crate::standing::Standing;
use crate::system::System;
use path_map::{AbsPath, Entry, Meta};
use spawner::{RootPlace, SpawnError};
use std::alloc::Global;
use std::io::ErrorKind;
use tree_digest::{Listing, ListingLine};

/// The bits of its mode by which a directory's owner may look into it and change it.
const OPEN: u32 = 0o700;

/// Fails where something else stands at a path.
fn check_standing<S: System>(system: &mut S, path: &str, wanted: Standing) -> Result<(), SpawnError>
    ensures recorded { OnOk result (S.observed ≡ true → S.facts system.new ≡ S.facts system.old ++ stands path.now wanted ∷ []) }
{
    let found = system.look(path).map_err(refusal)?;
    if found == wanted {
        Ok(())
    } else {
        Err(SpawnError::Failed)
    }
}

/// Fails where a path ends at a slash and no directory stands there.
fn check_step<S: System>(system: &mut S, path: &str, end: usize) -> Result<(), SpawnError>
    requires { end < length path.now }
    ensures recorded { OnOk result (S.observed ≡ true → S.facts system.new ≡ S.facts system.old ++ step_at (take end path.now) (get_or path.now end 0)) }
{
    if path.as_bytes()[end] == b'/' {
        let (above, _) = path.split_at(end);
        check_standing(system, above, Standing::Directory)
    } else {
        Ok(())
    }
}

/// Fails where a name on the way to a path, from a byte of it on, isn't a directory's own.
fn check_way<S: System>(system: &mut S, path: &str, start: usize) -> Result<(), SpawnError>
    requires { start ≤ length path.now }
    ensures recorded { OnOk result (S.observed ≡ true → S.facts system.new ≡ S.facts system.old ++ way path.now start) }
{
    'way: for end in start..path.len() {
        check_step(system, path, end)?;
    }
    check_standing(system, path, Standing::Directory)
}

/// A mode with all bits for the owner.
fn opened(mode: u32) -> u32
    ensures { result ≡ opened_to_owner mode }
{
    mode | OPEN
}

/// A directory is the root's own, and its owner may change it from here on.
fn open_directory<S: System>(
    system: &mut S,
    alloc: Global,
    root: &str,
    named: &AbsPath,
    meta: &Meta,
) -> Result<(), SpawnError>
    ensures recorded { OnOk result (S.observed ≡ true → S.facts system.new ≡ S.facts system.old
        ++ stands (below_root root.now named.now) Standing.Directory ∷ has_mode (below_root root.now named.now) (opened_to_owner meta.now.mode) ∷ []) }
{
    let path = path_below(alloc, root, named.as_str()).map_err(short)?;
    check_standing(system, path.as_str(), Standing::Directory)?;
    let mode = opened(u32::from(meta.mode));
    system.set_mode(path.as_str(), mode).map_err(refusal)
}

/// Opens the directory of a line to its owner. Fails where it isn't the root's own.
fn open_line<S: System>(
    system: &mut S,
    alloc: Global,
    root: &str,
    line: &ListingLine,
) -> Result<(), SpawnError>
    ensures recorded { OnOk result (S.observed ≡ true → S.facts system.new ≡ S.facts system.old ++ opening root.now line.now) }
{
    match &line.entry {
        Entry::Dir(meta) => open_directory(system, alloc, root, &line.path, meta),
        _ => Ok(()),
    }
}

/// Fails where a directory of the listing isn't the root's own, and opens each to its owner. A directory
/// comes before what stands in it.
fn open_directories<S: System>(
    system: &mut S,
    alloc: Global,
    root: &str,
    lines: &[ListingLine],
) -> Result<(), SpawnError>
    ensures recorded { OnOk result (S.observed ≡ true → S.facts system.new ≡ S.facts system.old ++ flat_map (opening root.now) lines.now) }
{
    'lines: for line in lines {
        open_line(system, alloc, root, line)?;
    }
    Ok(())
}

/// Fails where something else stands at a path than a link to that target.
fn check_link<S: System>(system: &mut S, path: &str, target: &str) -> Result<(), SpawnError>
    ensures recorded { OnOk result (S.observed ≡ true → S.facts system.new ≡ S.facts system.old ++ links path.now target.now ∷ []) }
{
    let found = system.target(path).map_err(refusal)?;
    if found.as_str() == target {
        Ok(())
    } else {
        Err(SpawnError::Failed)
    }
}

/// Makes a link, or finds it.
fn make_link<S: System>(
    system: &mut S,
    alloc: Global,
    root: &str,
    named: &AbsPath,
    target: &str,
) -> Result<(), SpawnError>
    ensures recorded { OnOk result (S.observed ≡ true → S.facts system.new ≡ S.facts system.old ++ links (below_root root.now named.now) target.now ∷ []) }
{
    let path = path_below(alloc, root, named.as_str()).map_err(short)?;
    match system.link(path.as_str(), target) {
        Ok(()) => Ok(()),
        Err(error) if error.kind() == ErrorKind::AlreadyExists => {
            check_link(system, path.as_str(), target)
        }
        Err(error) => Err(refusal(error)),
    }
}

/// Makes the link of a line, or finds it.
fn link_line<S: System>(
    system: &mut S,
    alloc: Global,
    root: &str,
    line: &ListingLine,
) -> Result<(), SpawnError>
    ensures recorded { OnOk result (S.observed ≡ true → S.facts system.new ≡ S.facts system.old ++ linking root.now line.now) }
{
    match &line.entry {
        Entry::Link { target, .. } => make_link(system, alloc, root, &line.path, target.as_str()),
        _ => Ok(()),
    }
}

/// Makes each link of the listing that doesn't stand there.
fn make_links<S: System>(
    system: &mut S,
    alloc: Global,
    root: &str,
    lines: &[ListingLine],
) -> Result<(), SpawnError>
    ensures recorded { OnOk result (S.observed ≡ true → S.facts system.new ≡ S.facts system.old ++ flat_map (linking root.now) lines.now) }
{
    'lines: for line in lines {
        link_line(system, alloc, root, line)?;
    }
    Ok(())
}

/// Sets the mode of a file that is the root's own.
fn set_file_mode<S: System>(system: &mut S, path: &str, meta: &Meta) -> Result<(), SpawnError>
    ensures recorded { OnOk result (S.observed ≡ true → S.facts system.new ≡ S.facts system.old ++ stands path.now Standing.File ∷ has_mode path.now meta.now.mode ∷ []) }
{
    check_standing(system, path, Standing::File)?;
    system.set_mode(path, u32::from(meta.mode)).map_err(refusal)
}

/// Sets the mode of a directory that was looked at before.
fn set_directory_mode<S: System>(system: &mut S, path: &str, meta: &Meta) -> Result<(), SpawnError>
    ensures recorded { OnOk result (S.observed ≡ true → S.facts system.new ≡ S.facts system.old ++ has_mode path.now meta.now.mode ∷ []) }
{
    system.set_mode(path, u32::from(meta.mode)).map_err(refusal)
}

/// Sets the mode of what a line names. A link has none of its own.
fn close_line<S: System>(
    system: &mut S,
    alloc: Global,
    root: &str,
    line: &ListingLine,
) -> Result<(), SpawnError>
    ensures recorded { OnOk result (S.observed ≡ true → S.facts system.new ≡ S.facts system.old ++ closing root.now line.now) }
{
    let path = path_below(alloc, root, line.path.as_str()).map_err(short)?;
    match &line.entry {
        Entry::Dir(meta) => set_directory_mode(system, path.as_str(), meta),
        Entry::File { meta, .. } => set_file_mode(system, path.as_str(), meta),
        Entry::Link { .. } => Ok(()),
    }
}

/// Sets the modes of the listing, what stands in a directory before the directory: so one that is closed
/// to its owner closes nothing that comes later.
fn set_modes<S: System>(
    system: &mut S,
    alloc: Global,
    root: &str,
    lines: &[ListingLine],
) -> Result<(), SpawnError>
    ensures recorded { OnOk result (S.observed ≡ true → S.facts system.new ≡ S.facts system.old ++ flat_map (closing root.now) (reverse lines.now)) }
{
    'lines: for behind in 0..lines.len() {
        let place = lines.len() - 1 - behind;
        let line = &lines[place];
        close_line(system, alloc, root, line)?;
    }
    Ok(())
}

/// Makes the links of a listing and sets its modes.
fn lay_out<S: System>(
    system: &mut S,
    alloc: Global,
    root: &str,
    lines: &[ListingLine],
) -> Result<(), SpawnError>
    ensures recorded { OnOk result (S.observed ≡ true → S.facts system.new ≡ S.facts system.old ++ laying root.now lines.now) }
{
    open_directories(system, alloc, root, lines)?;
    make_links(system, alloc, root, lines)?;
    set_modes(system, alloc, root, lines)
}

/// Makes the links of a listing's text and sets its modes in an app's root. Fails where the text is no
/// listing, where a directory or file of it doesn't stand there, where a link stands on the way to the
/// root or in place of a directory or file, where something else stands in place of a link, and where
/// the system fails.
pub fn make_ready<S: System>(
    system: &mut S,
    alloc: Global,
    base: &str,
    root: &RootPlace,
    listing: &[u8],
) -> Result<(), SpawnError>
    ensures recorded { OnOk result (S.observed ≡ true → IsRootReady listing.now base.now root.now (S.facts system.old) (S.facts system.new)) }
{
    let listing = Listing::read(alloc, listing).map_err(no_listing)?;
    let pod = path_of_pod(alloc, base, &root.spot).map_err(short)?;
    let path = path_of_root(alloc, base, root).map_err(short)?;
    check_way(system, path.as_str(), pod.len())?;
    lay_out(system, alloc, path.as_str(), listing.as_slice())
}
