// The folder that a process makes.
ghost use Rattle.std.specs.Prelude.{◌≡◌, ◌&&◌, not, filter, bytes_eq, option_map, IfOk, OnOk};
ghost use Rattle.std.specs.List.{list_any};
ghost use Rattle.dir_rules.specs.Marks.{parent, is_below_status, is_later_mark};
ghost use Rattle.dir_rules.specs.Seen.{is_making_area, makes_at, making_with_entry, with_path_synced, spoilt, making_changed, moved_making};
ghost use Rattle.dir_rules.specs.Rules.{has_made_none, is_dir, has_path_among, has_dir_among, has_file_among, is_all_done, is_whole_pod, of_making, is_in_directory, is_new_path, may_sync_entry};
ghost use Rattle.conformance.specs.Tables.{table_making, making_with_dir, making_with_piece};

use crate::table::MakingTable;
use dir_model::{Area, Bytes, Inner, NoMemory, Spot, TreeNode};
use dir_rules::Entry;
use marks::{is_below_status, is_empty, is_later_mark, parent, push_front, same_spot};
use std::alloc::Global;

fn is_making_area(area: Area) -> bool
    ensures { result ≡ is_making_area area }
{
    matches!(area, Area::Embryo | Area::Prepare | Area::Incoming)
}

/// Whether the process makes the folder at this spot.
pub fn makes_at(making: &Option<MakingTable>, spot: &Spot) -> bool
    ensures { result ≡ makes_at (option_map table_making making.now) spot.now }
{
    match making {
        None => false,
        Some(making) => same_spot(&making.spot, spot) && is_making_area(spot.area),
    }
}

/// Whether the process made no folder.
pub fn has_made_none(making: &Option<MakingTable>) -> bool
    ensures { result ≡ has_made_none (option_map table_making making.now) }
{
    match making {
        None => true,
        Some(_) => false,
    }
}

fn add_entry(making: &mut MakingTable, entry: Entry, directory: Bytes) -> Result<(), NoMemory>
    ensures { OnOk result (table_making making.new ≡ making_with_entry entry.path entry.node directory (table_making making.old)) }
{
    making.entries.push(entry)?;
    push_front(&mut making.unsynced, directory)
}

fn add_dir(making: &mut MakingTable, path: &Bytes) -> Result<(), NoMemory>
    ensures { OnOk result (table_making making.new ≡ making_with_entry path.now TreeNode.Dir (parent path.now) (table_making making.old)) }
{
    let alloc = *making.entries.allocator();
    let directory = Bytes::of(alloc, parent(path.as_slice()))?;
    let entry = Entry {
        path: path.copy()?,
        node: TreeNode::Dir,
    };
    add_entry(making, entry, directory)
}

fn piece_at(alloc: Global, path: &Bytes, piece: &[u8]) -> Result<Entry, NoMemory>
    ensures { IfOk result (λ entry. entry ≡ record { path = path.now; node = TreeNode.Piece piece.now }) }
{
    Ok(Entry {
        path: path.copy()?,
        node: TreeNode::Piece(Bytes::of(alloc, piece)?),
    })
}

fn add_piece(
    making: &mut MakingTable,
    path: &Bytes,
    piece: &[u8],
    directory: &[u8],
) -> Result<(), NoMemory>
    ensures { OnOk result (table_making making.new ≡ making_with_entry path.now (TreeNode.Piece piece.now) directory.now (table_making making.old)) }
{
    let alloc = *making.entries.allocator();
    let directory = Bytes::of(alloc, directory)?;
    let entry = piece_at(alloc, path, piece)?;
    add_entry(making, entry, directory)
}

/// A directory was made. Refused only where memory ran out.
pub fn note_dir(making: &mut Option<MakingTable>, inner: &Inner) -> Result<(), NoMemory>
    ensures { OnOk result (option_map table_making making.new ≡ making_with_dir inner.now (option_map table_making making.old)) }
{
    if !makes_at(making, &inner.spot) {
        return Ok(());
    }
    match making {
        None => Ok(()),
        Some(making) => add_dir(making, &inner.path),
    }
}

/// A piece of a file was made, and what is to be synced for it. Refused only where memory ran out.
pub fn note_piece(
    making: &mut Option<MakingTable>,
    inner: &Inner,
    piece: &[u8],
    directory: &[u8],
) -> Result<(), NoMemory>
    ensures { OnOk result (option_map table_making making.new ≡ making_with_piece inner.now piece.now directory.now (option_map table_making making.old)) }
{
    if !makes_at(making, &inner.spot) {
        return Ok(());
    }
    match making {
        None => Ok(()),
        Some(making) => add_piece(making, &inner.path, piece, directory),
    }
}

fn drop_path(unsynced: &mut Vec<Bytes>, path: &[u8])
    ensures { unsynced.new.items ≡ filter (λ p. not (bytes_eq p path.now)) unsynced.old.items }
{
    unsynced.retain(|other| other.as_slice() != path)
}

/// Something was synced.
pub fn note_sync(making: &mut Option<MakingTable>, inner: &Inner)
    ensures { option_map table_making making.new ≡ making_changed inner.now.spot (with_path_synced inner.now.path) (option_map table_making making.old) }
{
    if !makes_at(making, &inner.spot) {
        return;
    }
    match making {
        None => (),
        Some(making) => drop_path(&mut making.unsynced, inner.path.as_slice()),
    }
}

/// A change was refused.
pub fn spoil(making: &mut Option<MakingTable>, spot: &Spot)
    ensures { option_map table_making making.new ≡ making_changed spot.now spoilt (option_map table_making making.old) }
{
    if !makes_at(making, spot) {
        return;
    }
    match making {
        None => (),
        Some(making) => making.clean = false,
    }
}

fn move_made(making: &mut MakingTable, from: &Spot, to: &Spot)
    ensures { table_making making.new ≡ moved_making from.now to.now (table_making making.old) }
{
    if same_spot(&making.spot, from) {
        making.spot = *to;
    }
}

/// A folder was moved.
pub fn move_making(making: &mut Option<MakingTable>, from: &Spot, to: &Spot)
    ensures { option_map table_making making.new ≡ option_map (moved_making from.now to.now) (option_map table_making making.old) }
{
    match making {
        None => (),
        Some(making) => move_made(making, from, to),
    }
}

fn is_dir(node: &TreeNode) -> bool
    ensures { result ≡ is_dir node.now }
{
    matches!(node, TreeNode::Dir)
}

/// Whether something was made at the path.
pub fn has_path(path: &[u8], entries: &[Entry]) -> bool
    ensures { result ≡ has_path_among path.now entries.now }
{
    entries.iter().any(|entry| entry.path.as_slice() == path)
}

fn has_dir(path: &[u8], entries: &[Entry]) -> bool
    ensures { result ≡ has_dir_among path.now entries.now }
{
    entries.iter().any(|entry| is_dir(&entry.node) && entry.path.as_slice() == path)
}

/// Whether a file was made at the path.
pub fn has_file(path: &[u8], entries: &[Entry]) -> bool
    ensures { result ≡ has_file_among path.now entries.now }
{
    entries.iter().any(|entry| !is_dir(&entry.node) && entry.path.as_slice() == path)
}

fn is_all_done(making: &MakingTable) -> bool
    ensures { result ≡ is_all_done (table_making making.now) }
{
    making.clean && is_empty(&making.unsynced)
}

fn has_status(entries: &[Entry]) -> bool
    ensures { result ≡ list_any (λ e. is_below_status e.path) entries.now }
{
    entries
        .iter()
        .any(|entry| is_below_status(entry.path.as_slice()))
}

fn has_later_mark(entries: &[Entry]) -> bool
    ensures { result ≡ list_any (λ e. is_later_mark e.path) entries.now }
{
    entries
        .iter()
        .any(|entry| is_later_mark(entry.path.as_slice()))
}

// The maker has done its work, with an empty directory for statuses, and nothing that bears the name of a later mark.
fn is_whole_pod(making: &MakingTable) -> bool
    ensures { result ≡ is_whole_pod (table_making making.now) }
{
    is_all_done(making)
        && (has_dir(b"stage1/rootfs/rkt/status", &making.entries)
            && (!has_status(&making.entries) && !has_later_mark(&making.entries)))
}

/// Whether each change in the folder that it makes was answered Ok, and everything is synced.
pub fn has_all_done(making: &Option<MakingTable>) -> bool
    ensures { result ≡ of_making is_all_done (option_map table_making making.now) }
{
    match making {
        None => false,
        Some(making) => is_all_done(making),
    }
}

/// Whether it makes a pod's folder that is whole.
pub fn has_whole_pod(making: &Option<MakingTable>) -> bool
    ensures { result ≡ of_making is_whole_pod (option_map table_making making.now) }
{
    match making {
        None => false,
        Some(making) => is_whole_pod(making),
    }
}

fn is_in_directory(path: &[u8], entries: &[Entry]) -> bool
    ensures { result ≡ is_in_directory path.now entries.now }
{
    let directory = parent(path);
    is_empty(directory) || has_dir(directory, entries)
}

/// Whether it is a new path, not too long, in the folder itself or in a directory that it made.
pub fn is_new_path(path: &[u8], entries: &[Entry]) -> bool
    ensures { result ≡ is_new_path path.now entries.now }
{
    path.len() <= 8192
        && (!is_empty(path) && (!has_path(path, entries) && is_in_directory(path, entries)))
}

fn may_sync_entry(path: &[u8], making: &MakingTable) -> bool
    ensures { result ≡ may_sync_entry (record { spot = making.now.spot; path = path.now }) (table_making making.now) }
{
    is_empty(path) || has_path(path, &making.entries)
}

/// Whether it made what it syncs there.
pub fn has_to_sync(inner: &Inner, making: &Option<MakingTable>) -> bool
    ensures { result ≡ of_making (may_sync_entry inner.now) (option_map table_making making.now) }
{
    match making {
        None => false,
        Some(making) => may_sync_entry(inner.path.as_slice(), making),
    }
}

/// Whether it made the file to which it appends.
pub fn has_made_file(path: &[u8], making: &Option<MakingTable>) -> bool
    ensures { result ≡ of_making (λ m. has_file_among path.now m.entries) (option_map table_making making.now) }
{
    match making {
        None => false,
        Some(making) => has_file(path, &making.entries),
    }
}
