// The items that are still to be removed.
ghost use Rattle.std.specs.Prelude.{◌≡◌, ◌≤◌, true, length, IfOk, IfErr, IsErrOf, ◌++◌, ◌∷◌, []};
ghost use Rattle.std.specs.List.{list_any};
ghost use Rattle.dir_trait.specs.Paths.{is_path};
ghost use Rattle.folder_removal.specs.Tasks.{is_plain_name, has_too_long_path, deletion_task_of, with_listed, is_unlisted, AreChildren};

use crate::error::DeleteError;
use crate::path::{ItemPath, join};
use dir_trait::{Item, ItemKind};
use std::alloc::Global;

const MAX: usize = 8192;

/// An item that was shown, and that is to be removed. A directory is listed first.
#[derive(Drop)]
pub struct Task {
    pub path: ItemPath,
    pub kind: ItemKind,
    pub listed: bool,
}

impl Task {
    /// Whether it is a directory that wasn't listed yet.
    pub fn is_unlisted(&self) -> bool
        ensures { result ≡ is_unlisted self.now }
    {
        match self.kind {
            ItemKind::Dir => !self.listed,
            _ => false,
        }
    }
}

// What an item of a directory asks for.
fn child(alloc: Global, directory: &str, item: &Item) -> Result<Task, DeleteError>
    requires { is_path directory.now ≡ true }
    ensures is { IfOk result (λ t. t ≡ deletion_task_of directory.now item.now) }
    ensures plain { IfOk result (λ t. is_plain_name item.now.name ≡ true) }
    ensures within { IfOk result (λ t. length t.path ≤ 8192) }
    ensures stray { IsErrOf result DeleteError.Stray → has_too_long_path directory.now item.now ≡ true }
    ensures cause { IfErr result (λ e. e ≡ DeleteError.DirFault → ⊥) }
{
    let path = match join(alloc, directory, &item.name) {
        Ok(path) => path,
        Err(_) => return Err(DeleteError::NoMemory),
    };
    if path.as_str().len() > MAX {
        return Err(DeleteError::Stray);
    }
    Ok(Task {
        path,
        kind: item.kind,
        listed: false,
    })
}

// A task at the end.
fn push(tasks: &mut Vec<Task>, task: Task) -> Result<(), DeleteError>
    ensures items { IfOk result (λ done. tasks.new.items ≡ tasks.old.items ++ task ∷ []) }
    ensures cause { IfErr result (λ e. e ≡ DeleteError.NoMemory) }
{
    match tasks.push(task) {
        Ok(()) => Ok(()),
        Err(_) => Err(DeleteError::NoMemory),
    }
}

/// What the items of a directory ask for. `Stray` only where an item's path would be longer than
/// 8,192 bytes.
pub fn children(alloc: Global, directory: &str, items: &[Item]) -> Result<Vec<Task>, DeleteError>
    requires { is_path directory.now ≡ true }
    ensures are { IfOk result (λ tasks. AreChildren directory.now items.now tasks.items) }
    ensures stray { IsErrOf result DeleteError.Stray → list_any (has_too_long_path directory.now) items.now ≡ true }
    ensures cause { IfErr result (λ e. e ≡ DeleteError.DirFault → ⊥) }
{
    let mut tasks = Vec::new(alloc);
    'items: for item in items {
        push(&mut tasks, child(alloc, directory, item)?)?;
    }
    Ok(tasks)
}

/// A directory that was listed, and after it its items.
pub fn add(tasks: &mut Vec<Task>, task: Task, children: &mut Vec<Task>) -> Result<(), DeleteError>
    ensures items { IfOk result (λ done. tasks.new.items ≡ (tasks.old.items ++ with_listed task ∷ []) ++ children.old.items) }
    ensures cause { IfErr result (λ e. e ≡ DeleteError.NoMemory) }
{
    push(
        tasks,
        Task {
            path: task.path,
            kind: task.kind,
            listed: true,
        },
    )?;
    match tasks.append(children) {
        Ok(()) => Ok(()),
        Err(_) => Err(DeleteError::NoMemory),
    }
}
