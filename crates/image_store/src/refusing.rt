// Which file of the bundle an entry of the plan is copied from.
ghost use Rattle.std.specs.Prelude.{◌≡◌, ◌<◌, ℕ, length, IfOk};
ghost use Rattle.image_store.specs.Plans.{origin_of, IsUnlikeRefusal, IsBuildRefusal};

use crate::error::out_of_memory;
use ac_types::{NoMemory, Text};
use folder_building::{BuildError, Content, PlanEntry};
use image_reading::StoreError;

// The path from which an entry's bytes come, or else its own.
fn origin_of(entry: &PlanEntry) -> Result<Text, NoMemory>
    ensures { IfOk result (λ path. path ≡ origin_of entry.now) }
{
    match &entry.content {
        Content::Copied { origin, .. } => origin.path.copy(),
        _ => entry.path.copy(),
    }
}

// The refusal where the file of the entry with this number is missing or differs.
fn unlike(plan: &[PlanEntry], place: usize) -> StoreError
    requires { place < length plan.now }
    ensures { IsUnlikeRefusal plan.now place result }
{
    match origin_of(&plan[place]) {
        Ok(path) => StoreError::Damaged(path),
        Err(error) => out_of_memory(error),
    }
}

/// The refusal where a folder wasn't filled by the plan.
pub(crate) fn build_refusal(plan: &[PlanEntry], error: BuildError) -> StoreError
    requires { (place : ℕ) → error ≡ BuildError.Unlike place → place < length plan.now }
    ensures { IsBuildRefusal plan.now error result }
{
    match error {
        BuildError::Unlike(place) => unlike(plan, place),
        BuildError::SourceFault => StoreError::BundleFault,
        BuildError::DirFault => StoreError::DirFault,
        BuildError::Stray => StoreError::Stray,
        BuildError::NoMemory => StoreError::NoMemory,
    }
}
