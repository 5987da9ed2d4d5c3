// The deletion of a folder, an item at a time.
ghost use Rattle.std.specs.Prelude.{◌≡◌, ◌≤◌, ◌<◌, ◌++◌, ◌∷◌, [], true, IfOk, IfErr, IsErrOf};
ghost use Rattle.dir_trait.specs.Causes.{Rose};
ghost use Rattle.dir_trait.specs.Paths.{is_path};
ghost use Rattle.dir_trait.specs.Replies.{done_reply, may_refuse};
ghost use Rattle.dir_trait.specs.Local.{IsActive};
ghost use Rattle.dir_trait.specs.DirCalls.{DirCall, ExtendsBy};
ghost use Rattle.dir_model.specs.declared.request.Reply.TheVariants.{Done};
ghost use Rattle.folder_removal.specs.Tasks.{HasChildren};
ghost use Rattle.folder_removal.specs.Weights.{weigh};
ghost use Rattle.folder_removal.specs.Removal.{is_removal_area, asks_deletion_at, spares_folders, KeepsFolders};
ghost use Rattle.folder_removal.specs.Removal.{inner_at, lists_at, removal_of, ListsStray, RemovesStray, AsksRemoval, StrayTurn, AreShown, HandsOn, StrayAfter, EndsWithStrayDeletion, EndsRemoved};
ghost use Rattle.folder_removal.specs.Known.{Learns, StrayAtWork, StrayDeleting, ListedStray, IsListedAsTasks, OnlyLists, OnlyRemoves, OnlyWorks, WorksOff, OnlyTries, Deletes};

use crate::error::{DeleteError, delete_error};
use crate::task::{Task, add, children};
use dir_trait::{Dir, DirError, ItemKind, Spot};
use std::alloc::Global;

// Lists a directory. Its items are what is to be removed next.
fn list<D: Dir>(
    alloc: Global,
    dir: &mut D,
    spot: &Spot,
    path: &str,
) -> Result<Vec<Task>, DeleteError>
    requires active { IsActive (D.shown dir.old).local }
    requires area { is_removal_area spot.now.area ≡ true }
    requires path { is_path path.now ≡ true }
    ensures same { (D.shown dir.new).process ≡ (D.shown dir.old).process }
    ensures faults { (D.shown dir.old).faults ≤ (D.shown dir.new).faults }
    ensures cause { IsErrOf result DeleteError.DirFault → Rose (D.shown dir.old).faults (D.shown dir.new).faults }
    ensures local { (D.shown dir.new).local ≡ (D.shown dir.old).local }
    ensures extends { D.observed ≡ true → ExtendsBy (asks_deletion_at spot.now) (D.shown dir.old) (D.shown dir.new) }
    ensures lists { D.observed ≡ true → ExtendsBy (lists_at spot.now) (D.shown dir.old) (D.shown dir.new) }
    ensures spares { D.observed ≡ true → ExtendsBy spares_folders (D.shown dir.old) (D.shown dir.new) }
    ensures stray { IsErrOf result DeleteError.Stray → D.observed ≡ true → ListsStray (inner_at spot.now path.now) (D.shown dir.old).process (D.shown dir.old).trace (D.shown dir.new).trace }
    ensures asked { IsErrOf result DeleteError.Stray → D.observed ≡ true → ListedStray (inner_at spot.now path.now) (D.shown dir.old).process (D.shown dir.old).trace (D.shown dir.new).trace }
    ensures known { D.observed ≡ true → OnlyLists spot.now (D.shown dir.old) (D.shown dir.new) }
    ensures shown { IfOk result (λ tasks. D.observed ≡ true → AreShown spot.now tasks.items (D.shown dir.old).process (D.shown dir.old).trace (D.shown dir.new).trace) }
    ensures children { IfOk result (λ tasks. HasChildren path.now tasks.items) }
    ensures listed { IfOk result (λ tasks. D.observed ≡ true → IsListedAsTasks spot.now path.now tasks.items (D.shown dir.old) (D.shown dir.new)) }
{
    let spot = *spot;
    match dir.list_in(alloc, spot, path) {
        Ok(items) => children(alloc, path, items.as_slice()),
        Err(error) => Err(delete_error(error)),
    }
}

// Asks for the removal of one item, by the call for its kind.
fn ask<D: Dir>(alloc: Global, dir: &mut D, spot: &Spot, task: &Task) -> Result<(), DirError>
    requires active { IsActive (D.shown dir.old).local }
    ensures cause { IsErrOf result DirError.Failed → Rose (D.shown dir.old).faults (D.shown dir.new).faults }
    ensures refusals { IfErr result (λ e. may_refuse (removal_of spot.now task.now) e ≡ true) }
    ensures local { (D.shown dir.new).local ≡ (D.shown dir.old).local }
    ensures called { DirCall D.observed (D.shown dir.old) (removal_of spot.now task.now) (done_reply result) (D.shown dir.new) }
{
    let spot = *spot;
    match task.kind {
        ItemKind::Dir => dir.remove_dir_in(alloc, spot, task.path.as_str()),
        ItemKind::File => dir.remove_file_in(alloc, spot, task.path.as_str()),
        ItemKind::Other => dir.remove_file_in(alloc, spot, task.path.as_str()),
    }
}

// Removes one item, by the call for its kind.
fn remove<D: Dir>(alloc: Global, dir: &mut D, spot: &Spot, task: &Task) -> Result<(), DeleteError>
    requires active { IsActive (D.shown dir.old).local }
    ensures same { (D.shown dir.new).process ≡ (D.shown dir.old).process }
    ensures faults { (D.shown dir.old).faults ≤ (D.shown dir.new).faults }
    ensures cause { IsErrOf result DeleteError.DirFault → Rose (D.shown dir.old).faults (D.shown dir.new).faults }
    ensures local { (D.shown dir.new).local ≡ (D.shown dir.old).local }
    ensures extends { D.observed ≡ true → ExtendsBy (asks_deletion_at spot.now) (D.shown dir.old) (D.shown dir.new) }
    ensures spares { D.observed ≡ true → ExtendsBy spares_folders (D.shown dir.old) (D.shown dir.new) }
    ensures stray { IsErrOf result DeleteError.Stray → D.observed ≡ true → RemovesStray spot.now task.now (D.shown dir.old).process (D.shown dir.old).trace (D.shown dir.new).trace }
    ensures asked { D.observed ≡ true → AsksRemoval spot.now task.now (D.shown dir.old).process (D.shown dir.old).trace (D.shown dir.new).trace }
    ensures known { D.observed ≡ true → OnlyRemoves spot.now task.now (D.shown dir.old) (D.shown dir.new) }
    ensures removed { IfOk result (λ done. D.observed ≡ true → Learns (removal_of spot.now task.now) Done (D.shown dir.old) (D.shown dir.new)) }
{
    match ask(alloc, dir, spot, task) {
        Ok(()) => Ok(()),
        Err(error) => Err(delete_error(error)),
    }
}

// Does what one task asks for: lists a directory, or removes what can be removed.
fn turn<D: Dir>(
    alloc: Global,
    dir: &mut D,
    spot: &Spot,
    tasks: &mut Vec<Task>,
    task: Task,
) -> Result<(), DeleteError>
    requires active { IsActive (D.shown dir.old).local }
    requires area { is_removal_area spot.now.area ≡ true }
    ensures same { (D.shown dir.new).process ≡ (D.shown dir.old).process }
    ensures faults { (D.shown dir.old).faults ≤ (D.shown dir.new).faults }
    ensures cause { IsErrOf result DeleteError.DirFault → Rose (D.shown dir.old).faults (D.shown dir.new).faults }
    ensures local { (D.shown dir.new).local ≡ (D.shown dir.old).local }
    ensures extends { D.observed ≡ true → ExtendsBy (asks_deletion_at spot.now) (D.shown dir.old) (D.shown dir.new) }
    ensures spares { D.observed ≡ true → ExtendsBy spares_folders (D.shown dir.old) (D.shown dir.new) }
    ensures stray { IsErrOf result DeleteError.Stray → D.observed ≡ true → StrayTurn spot.now task (D.shown dir.old).process (D.shown dir.old).trace (D.shown dir.new).trace }
    ensures knew { IsErrOf result DeleteError.Stray → D.observed ≡ true → StrayAtWork spot.now (tasks.old.items ++ task ∷ []) (D.shown dir.old) (D.shown dir.new) }
    ensures at_hand { IfOk result (λ done. D.observed ≡ true → HandsOn spot.now (tasks.old.items ++ task ∷ []) tasks.new.items (D.shown dir.old) (D.shown dir.new)) }
    ensures known { D.observed ≡ true → OnlyWorks spot.now (tasks.old.items ++ task ∷ []) (D.shown dir.old) (D.shown dir.new) }
    ensures work { IfOk result (λ done. D.observed ≡ true → WorksOff spot.now (tasks.old.items ++ task ∷ []) tasks.new.items (D.shown dir.old) (D.shown dir.new)) }
    ensures less { IfOk result (λ done. weigh tasks.new.items < weigh (tasks.old.items ++ task ∷ [])) }
{
    if task.is_unlisted() {
        let mut children = list(alloc, dir, spot, task.path.as_str())?;
        add(tasks, task, &mut children)
    } else {
        remove(alloc, dir, spot, &task)
    }
}

// Does all tasks, the last one first.
fn empty<D: Dir>(
    alloc: Global,
    dir: &mut D,
    spot: &Spot,
    mut tasks: Vec<Task>,
) -> Result<(), DeleteError>
    requires active { IsActive (D.shown dir.old).local }
    requires area { is_removal_area spot.now.area ≡ true }
    ensures same { (D.shown dir.new).process ≡ (D.shown dir.old).process }
    ensures faults { (D.shown dir.old).faults ≤ (D.shown dir.new).faults }
    ensures cause { IsErrOf result DeleteError.DirFault → Rose (D.shown dir.old).faults (D.shown dir.new).faults }
    ensures local { (D.shown dir.new).local ≡ (D.shown dir.old).local }
    ensures extends { D.observed ≡ true → ExtendsBy (asks_deletion_at spot.now) (D.shown dir.old) (D.shown dir.new) }
    ensures spares { D.observed ≡ true → ExtendsBy spares_folders (D.shown dir.old) (D.shown dir.new) }
    ensures stray { IsErrOf result DeleteError.Stray → D.observed ≡ true → StrayAfter spot.now tasks.items (D.shown dir.old) (D.shown dir.new) }
    ensures knew { IsErrOf result DeleteError.Stray → D.observed ≡ true → StrayAtWork spot.now tasks.items (D.shown dir.old) (D.shown dir.new) }
    ensures known { D.observed ≡ true → OnlyWorks spot.now tasks.items (D.shown dir.old) (D.shown dir.new) }
    ensures work { IfOk result (λ done. D.observed ≡ true → WorksOff spot.now tasks.items [] (D.shown dir.old) (D.shown dir.new)) }
{
    'tasks: while let Some(task) = tasks.pop() {
        turn(alloc, dir, spot, &mut tasks, task)?;
    }
    Ok(())
}

/// Deletes the folder at a location: each item that a listing shows, each directory once it is
/// empty, and at last the folder. The process holds the lock that a removal there needs, and has
/// listed nothing under it that is still there. `Stray` where something stood in a directory that
/// was emptied, or was gone before it was removed, or where a path is longer than 8,192 bytes; and where
/// the folder itself or a directory that was shown was missing when it was listed. Where it is refused,
/// the folder wasn't removed.
pub fn delete_folder<D: Dir>(alloc: Global, dir: &mut D, spot: Spot) -> Result<(), DeleteError>
    requires active { IsActive (D.shown dir.old).local }
    requires area { is_removal_area spot.area ≡ true }
    ensures same { (D.shown dir.new).process ≡ (D.shown dir.old).process }
    ensures faults { (D.shown dir.old).faults ≤ (D.shown dir.new).faults }
    ensures cause { IsErrOf result DeleteError.DirFault → Rose (D.shown dir.old).faults (D.shown dir.new).faults }
    ensures local { (D.shown dir.new).local ≡ (D.shown dir.old).local }
    ensures extends { D.observed ≡ true → ExtendsBy (asks_deletion_at spot) (D.shown dir.old) (D.shown dir.new) }
    ensures stray { IsErrOf result DeleteError.Stray → D.observed ≡ true → EndsWithStrayDeletion spot (D.shown dir.old) (D.shown dir.new) }
    ensures knew { IsErrOf result DeleteError.Stray → D.observed ≡ true → StrayDeleting spot (D.shown dir.old) (D.shown dir.new) }
    ensures refused { IfErr result (λ error. D.observed ≡ true → OnlyTries spot (D.shown dir.old) (D.shown dir.new)) }
    ensures kept { IfErr result (λ error. D.observed ≡ true → KeepsFolders (D.shown dir.old) (D.shown dir.new)) }
    ensures deleted { IfOk result (λ done. D.observed ≡ true → Deletes spot (D.shown dir.old) (D.shown dir.new)) }
    ensures gone { IfOk result (λ done. D.observed ≡ true → EndsRemoved spot (D.shown dir.old) (D.shown dir.new)) }
{
    let spot = &spot;
    let tasks = list(alloc, dir, spot, "")?;
    empty(alloc, dir, spot, tasks)?;
    match dir.remove_folder(alloc, *spot) {
        Ok(()) => Ok(()),
        Err(error) => Err(delete_error(error)),
    }
}
