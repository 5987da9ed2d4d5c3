// What is noted in a pod's folder: that an app was started, and how it ended.
ghost use Rattle.std.specs.Prelude.{◌≡◌, ℕ, true, IfOk, IfErr, string_bytes};
ghost use Rattle.dir_model.specs.Local.{IsActive};
ghost use Rattle.dir_model.specs.Paths.{is_path};
ghost use Rattle.dir_model.specs.declared.request.Request.TheVariants.{MakeFileIn, AppendIn, SyncIn};
ghost use Rattle.folder_building.specs.Making.{inner_at};
ghost use Rattle.spawner.specs.Conditions.{start_mark, StillRuns};
ghost use Rattle.stage1.specs.Notes.{status_path, status_text, MadeFile, Appended, Synced, IsRootInRun, notes_at, WroteStatus, StaysAble, IsMarked};
ghost use Rattle.stage1.specs.Refusals.{NoteCause};
ghost use Rattle.stage1.specs.Keeping.{CallsDirectory, NotesAtMost, mark_times, status_times};
ghost use Rattle.dir_trait.specs.Effects.{OnlyAsks};

use crate::error::{Fault, change_fault, out_of_memory};
use dir_trait::{Dir, Spot};
use spawner::RootPlace;
use std::alloc::{AllocError, Global};

// The path of an app's mark.
fn mark_path(alloc: Global, app: &str) -> Result<String, AllocError>
    ensures { IfOk result (λ path. string_bytes path ≡ start_mark app.now) }
{
    let mut path = String::from_str(alloc, "started-")?;
    path.push_str(app)?;
    Ok(path)
}

// The path of the file of an app's status.
fn status_path(alloc: Global, app: &str) -> Result<String, AllocError>
    ensures { IfOk result (λ path. string_bytes path ≡ status_path app.now) }
{
    let mut path = String::from_str(alloc, "stage1/rootfs/rkt/status/")?;
    path.push_str(app)?;
    Ok(path)
}

// What it says: the status in decimal, and a line end.
fn status_text(alloc: Global, status: u8) -> Result<String, AllocError>
    ensures { IfOk result (λ text. string_bytes text ≡ status_text status) }
{
    let mut text = status.to_string(alloc)?;
    text.push_str("\n")?;
    Ok(text)
}

// Makes an empty file in the folder.
fn make_file<D: Dir>(alloc: Global, dir: &mut D, spot: &Spot, path: &str) -> Result<(), Fault>
    requires active { IsActive (D.shown dir.old).local }
    requires form { is_path path.now ≡ true }
    ensures worked { OnlyAsks D.observed (notes_at spot.now) (D.shown dir.old) (D.shown dir.new) }
    ensures cause { IfErr result (λ f. NoteCause D.observed f (D.shown dir.old) (D.shown dir.new)) }
    ensures stays { D.observed ≡ true → StaysAble (D.shown dir.old) (D.shown dir.new) }
    ensures done { IfOk result (λ done. MadeFile D.observed spot.now path.now (D.shown dir.old) (D.shown dir.new)) }
    ensures called { D.observed ≡ true → CallsDirectory D.observed (MakeFileIn (inner_at spot.now path.now)) (D.shown dir.old) (D.shown dir.new) }
{
    let spot = *spot;
    match dir.make_file_in(alloc, spot, path) {
        Ok(()) => Ok(()),
        Err(error) => Err(change_fault(error)),
    }
}

// Adds bytes at the end of a file of the folder.
fn append<D: Dir>(
    alloc: Global,
    dir: &mut D,
    spot: &Spot,
    path: &str,
    piece: &[u8],
) -> Result<(), Fault>
    requires active { IsActive (D.shown dir.old).local }
    requires form { is_path path.now ≡ true }
    ensures worked { OnlyAsks D.observed (notes_at spot.now) (D.shown dir.old) (D.shown dir.new) }
    ensures cause { IfErr result (λ f. NoteCause D.observed f (D.shown dir.old) (D.shown dir.new)) }
    ensures stays { D.observed ≡ true → StaysAble (D.shown dir.old) (D.shown dir.new) }
    ensures done { IfOk result (λ done. Appended D.observed spot.now path.now piece.now (D.shown dir.old) (D.shown dir.new)) }
    ensures called { D.observed ≡ true → CallsDirectory D.observed (AppendIn (inner_at spot.now path.now) piece.now) (D.shown dir.old) (D.shown dir.new) }
{
    let spot = *spot;
    match dir.append_in(alloc, spot, path, piece) {
        Ok(()) => Ok(()),
        Err(error) => Err(change_fault(error)),
    }
}

// Syncs a file of the folder, or the folder.
fn sync<D: Dir>(alloc: Global, dir: &mut D, spot: &Spot, path: &str) -> Result<(), Fault>
    requires active { IsActive (D.shown dir.old).local }
    requires form { is_path path.now ≡ true }
    ensures worked { OnlyAsks D.observed (notes_at spot.now) (D.shown dir.old) (D.shown dir.new) }
    ensures cause { IfErr result (λ f. NoteCause D.observed f (D.shown dir.old) (D.shown dir.new)) }
    ensures stays { D.observed ≡ true → StaysAble (D.shown dir.old) (D.shown dir.new) }
    ensures done { IfOk result (λ done. Synced D.observed spot.now path.now (D.shown dir.old) (D.shown dir.new)) }
    ensures called { D.observed ≡ true → CallsDirectory D.observed (SyncIn (inner_at spot.now path.now)) (D.shown dir.old) (D.shown dir.new) }
{
    let spot = *spot;
    match dir.sync_in(alloc, spot, path) {
        Ok(()) => Ok(()),
        Err(error) => Err(change_fault(error)),
    }
}

// Makes the file at the path, and then syncs the pod's folder.
fn make_mark<D: Dir>(alloc: Global, dir: &mut D, root: &RootPlace, path: &str) -> Result<(), Fault>
    requires active { IsActive (D.shown dir.old).local }
    requires form { is_path path.now ≡ true }
    requires path { path.now ≡ start_mark root.now.app }
    requires place { IsRootInRun root.now }
    requires runs { D.observed ≡ true → StillRuns (D.shown dir.old) root.now.spot.name }
    ensures worked { OnlyAsks D.observed (notes_at root.now.spot) (D.shown dir.old) (D.shown dir.new) }
    ensures cause { IfErr result (λ f. NoteCause D.observed f (D.shown dir.old) (D.shown dir.new)) }
    ensures stays { D.observed ≡ true → StaysAble (D.shown dir.old) (D.shown dir.new) }
    ensures may { IfOk result (λ done. D.observed ≡ true → IsMarked (D.shown dir.new) root.now) }
    ensures keeps { D.observed ≡ true → NotesAtMost (mark_times root.now) (D.shown dir.old) (D.shown dir.new) }
{
    make_file(alloc, dir, &root.spot, path)?;
    sync(alloc, dir, &root.spot, "")
}

/// Makes the mark that the app was started, and syncs the pod's folder, so that the mark outlasts the
/// machine before any program of the app runs.
pub(crate) fn mark_started<D: Dir>(
    alloc: Global,
    dir: &mut D,
    root: &RootPlace,
) -> Result<(), Fault>
    requires active { IsActive (D.shown dir.old).local }
    requires place { IsRootInRun root.now }
    requires runs { D.observed ≡ true → StillRuns (D.shown dir.old) root.now.spot.name }
    ensures worked { OnlyAsks D.observed (notes_at root.now.spot) (D.shown dir.old) (D.shown dir.new) }
    ensures cause { IfErr result (λ f. NoteCause D.observed f (D.shown dir.old) (D.shown dir.new)) }
    ensures stays { D.observed ≡ true → StaysAble (D.shown dir.old) (D.shown dir.new) }
    ensures may { IfOk result (λ done. D.observed ≡ true → IsMarked (D.shown dir.new) root.now) }
    ensures keeps { D.observed ≡ true → NotesAtMost (mark_times root.now) (D.shown dir.old) (D.shown dir.new) }
{
    match mark_path(alloc, root.app.as_str()) {
        Ok(path) => make_mark(alloc, dir, root, path.as_str()),
        Err(error) => Err(out_of_memory(error)),
    }
}

// Makes the file at the path, writes the text into it, and syncs it.
fn write_status<D: Dir>(
    alloc: Global,
    dir: &mut D,
    root: &RootPlace,
    path: &str,
    text: &str,
) -> Result<(), Fault>
    requires active { IsActive (D.shown dir.old).local }
    requires form { is_path path.now ≡ true }
    requires path { path.now ≡ status_path root.now.app }
    requires place { IsRootInRun root.now }
    ensures worked { OnlyAsks D.observed (notes_at root.now.spot) (D.shown dir.old) (D.shown dir.new) }
    ensures cause { IfErr result (λ f. NoteCause D.observed f (D.shown dir.old) (D.shown dir.new)) }
    ensures stays { D.observed ≡ true → StaysAble (D.shown dir.old) (D.shown dir.new) }
    ensures wrote { IfOk result (λ done. D.observed ≡ true → (status : ℕ) → text.now ≡ status_text status → WroteStatus root.now status (D.shown dir.new)) }
    ensures keeps { D.observed ≡ true → NotesAtMost (status_times root.now) (D.shown dir.old) (D.shown dir.new) }
{
    make_file(alloc, dir, &root.spot, path)?;
    append(alloc, dir, &root.spot, path, text.as_bytes())?;
    sync(alloc, dir, &root.spot, path)
}

/// Writes the file of an app's status.
pub(crate) fn note_status<D: Dir>(
    alloc: Global,
    dir: &mut D,
    root: &RootPlace,
    status: u8,
) -> Result<(), Fault>
    requires active { IsActive (D.shown dir.old).local }
    requires place { IsRootInRun root.now }
    ensures worked { OnlyAsks D.observed (notes_at root.now.spot) (D.shown dir.old) (D.shown dir.new) }
    ensures cause { IfErr result (λ f. NoteCause D.observed f (D.shown dir.old) (D.shown dir.new)) }
    ensures stays { D.observed ≡ true → StaysAble (D.shown dir.old) (D.shown dir.new) }
    ensures wrote { IfOk result (λ done. D.observed ≡ true → WroteStatus root.now status (D.shown dir.new)) }
    ensures keeps { D.observed ≡ true → NotesAtMost (status_times root.now) (D.shown dir.old) (D.shown dir.new) }
{
    match status_path(alloc, root.app.as_str()) {
        Ok(path) => match status_text(alloc, status) {
            Ok(text) => write_status(alloc, dir, root, path.as_str(), text.as_str()),
            Err(error) => Err(out_of_memory(error)),
        },
        Err(error) => Err(out_of_memory(error)),
    }
}
