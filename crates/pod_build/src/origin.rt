// From which file of the store an entry of a plan is copied.
ghost use Rattle.std.specs.Prelude.{◌≡◌, ◌<◌, ◌++◌, ◌∷◌, length, IfOk};
ghost use Rattle.pod_build.specs.Origins.{origin_path, IsOriginDamaged};

use crate::error::BuildError;
use ac_types::{NoMemory, Text};
use folder_building::{Content, PlanEntry};
use std::alloc::Global;

// A text, a slash and what follows it.
fn below(alloc: Global, front: &str, rest: &str) -> Result<Text, NoMemory>
    ensures { IfOk result (λ text. text ≡ front.now ++ 47 ∷ rest.now) }
{
    let mut text = String::from_str(alloc, front)?;
    text.push_str("/")?;
    text.push_str(rest)?;
    Ok(Text::from_string(text))
}

// The path of the file in the area of images, or else the entry's own path.
fn origin_path(alloc: Global, entry: &PlanEntry) -> Result<Text, NoMemory>
    ensures { IfOk result (λ path. path ≡ origin_path entry.now) }
{
    match &entry.content {
        Content::Copied { origin, .. } => match &origin.folder {
            Some(folder) => below(alloc, folder.as_str(), origin.path.as_str()),
            None => origin.path.copy(),
        },
        _ => entry.path.copy(),
    }
}

/// The refusal where the file of the entry with this number is missing or differs.
pub(crate) fn damaged(alloc: Global, plan: &[PlanEntry], place: usize) -> BuildError
    requires { place < length plan.now }
    ensures { IsOriginDamaged plan.now place result }
{
    match origin_path(alloc, &plan[place]) {
        Ok(path) => BuildError::Damaged(path),
        Err(_) => BuildError::NoMemory,
    }
}
