// The entries of a plan, by their paths.
ghost use Rattle.std.specs.Prelude.{◌≡◌, ◌++◌, IfOk};
ghost use Rattle.folder_building.specs.declared.plan.Content.TheVariants.{Directory};
ghost use Rattle.folder_building.specs.TreePlans.{plan_entry_at};
ghost use Rattle.folder_building.specs.ImagePlans.{given_file};

use ac_types::{NoMemory, Text};
use dir_trait::Bytes;
use folder_building::{Content, PlanEntry};
use std::alloc::Global;

/// A text, and a name after it.
pub(crate) fn joined(alloc: Global, front: &str, name: &str) -> Result<Text, NoMemory>
    ensures { IfOk result (λ text. text ≡ front.now ++ name.now) }
{
    let mut text = String::from_str(alloc, front)?;
    text.push_str(name)?;
    Ok(Text::from_string(text))
}

/// A name between two texts.
pub(crate) fn around(alloc: Global, front: &str, name: &str, end: &str) -> Result<Text, NoMemory>
    ensures { IfOk result (λ text. text ≡ front.now ++ (name.now ++ end.now)) }
{
    let mut text = String::from_str(alloc, front)?;
    text.push_str(name)?;
    text.push_str(end)?;
    Ok(Text::from_string(text))
}

/// A directory.
pub(crate) fn directory(path: Text) -> PlanEntry
    ensures { result ≡ plan_entry_at path Directory }
{
    let content = Content::Directory;
    PlanEntry { path, content }
}

/// A file with these bytes.
pub(crate) fn given_file(alloc: Global, path: Text, bytes: &[u8]) -> Result<PlanEntry, NoMemory>
    ensures { IfOk result (λ entry. entry ≡ given_file path bytes.now) }
{
    let content = Content::Given(Bytes::from_vec(Vec::from_slice(alloc, bytes)?));
    Ok(PlanEntry { path, content })
}
