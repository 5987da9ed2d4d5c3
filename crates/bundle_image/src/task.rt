// What a walk has still to come to.
ghost use Rattle.std.specs.Prelude.{◌≡◌, ◌++◌, map, reverse, IfOk, OnOk};
ghost use Rattle.std.specs.List.{AllByRecursion};
ghost use Rattle.dir_model.specs.Names.{IsFileName};
ghost use Rattle.bundle_image.specs.Tasks.{walk_task_of};

use crate::place::joined;
use ac_types::{NoMemory, Text};
use dir_trait::{BundleItem, BundleKind};
use std::alloc::Global;

/// An entry that was listed: its path below the walk's root, and its kind.
#[derive(Drop)]
pub(crate) struct Task {
    pub(crate) path: Text,
    pub(crate) kind: BundleKind,
}

fn child(alloc: Global, directory: &str, item: &BundleItem) -> Result<Task, NoMemory>
    ensures task { IfOk result (λ task. task ≡ walk_task_of directory.now item.now) }
    ensures named { IfOk result (λ task. IsFileName item.now.name) }
{
    let front = joined(alloc, directory, "/")?;
    Ok(Task {
        path: joined(alloc, front.as_str(), item.name.as_str())?,
        kind: item.kind,
    })
}

/// The entries of a directory, the first of them last.
fn children(alloc: Global, directory: &str, items: &[BundleItem]) -> Result<Vec<Task>, NoMemory>
    ensures tasks { IfOk result (λ tasks. tasks.items ≡ reverse (map (walk_task_of directory.now) items.now)) }
    ensures named { IfOk result (λ tasks. AllByRecursion (λ item. IsFileName item.name) items.now) }
{
    let mut tasks = Vec::new(alloc);
    'items: for item in items {
        tasks.push(child(alloc, directory, item)?)?;
    }
    tasks.reverse();
    Ok(tasks)
}

/// Puts the entries of a directory at the end, the first of them last.
pub(crate) fn add_children(
    alloc: Global,
    directory: &str,
    items: &[BundleItem],
    pending: &mut Vec<Task>,
) -> Result<(), NoMemory>
    ensures tasks { OnOk result (pending.new.items ≡ pending.old.items ++ reverse (map (walk_task_of directory.now) items.now)) }
    ensures named { OnOk result (AllByRecursion (λ item. IsFileName item.name) items.now) }
{
    let mut tasks = children(alloc, directory, items)?;
    pending.append(&mut tasks)?;
    Ok(())
}
