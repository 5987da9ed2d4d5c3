// Why a pod wasn't prepared.
ghost use Rattle.std.specs.Prelude.{◌≡◌, ◌<◌, ℕ, length, IfOk};
ghost use Rattle.pod_build.specs.Refusals.{gate_refusal, plan_refusal, IsMakeRefusal};

use crate::MakeError;
use crate::origin::damaged;
use ac_types::{Text, memory};
use dep_match::DepError;
use dir_files::LockError;
use dir_trait::{Area, PodId};
use folder_building::PlanEntry;
use pod_manifest::GenError;
use pod_plan::PlanError;
use render::RenderError;
use std::alloc::Global;
use tree_digest::ListingError;

/// Why a pod wasn't prepared.
#[derive(Drop)]
pub enum BuildError {
    /// Another process holds the lock of that area exclusively: of images, or of embryo.
    Busy(Area),
    /// The file at the path, which begins with an image's key, is missing, has no reading, or differs from what
    /// the image's listing says of it.
    Damaged(Text),
    /// No image matches the reference at that place.
    NoMatch(usize),
    /// The first fault in the dependencies of an image.
    DepError(DepError),
    /// The first refusal of the pod's manifest.
    GenError(GenError),
    /// An app's root is made of too many entries.
    RenderError(RenderError),
    /// The listing of an app's root passes a limit.
    ListingError(ListingError),
    /// A folder with the pod's name stands in embryo.
    Taken(PodId),
    /// The directory failed.
    DirFault,
    /// The directory gave an answer that this process's own making doesn't explain.
    Stray,
    /// Memory ran out.
    NoMemory,
}

impl BuildError {
    /// An equal error. `NoMemory` where memory ran out.
    pub fn copy(&self) -> Result<BuildError, memory::NoMemory>
        ensures { IfOk result (λ copy. copy ≡ self.now) }
    {
        match self {
            BuildError::Busy(area) => Ok(BuildError::Busy(*area)),
            BuildError::Damaged(path) => Ok(BuildError::Damaged(path.copy()?)),
            BuildError::NoMatch(place) => Ok(BuildError::NoMatch(*place)),
            BuildError::DepError(fault) => Ok(BuildError::DepError(fault.copy()?)),
            BuildError::GenError(refusal) => Ok(BuildError::GenError(refusal.copy()?)),
            BuildError::RenderError(refusal) => Ok(BuildError::RenderError(*refusal)),
            BuildError::ListingError(refusal) => Ok(BuildError::ListingError(*refusal)),
            BuildError::Taken(pod) => Ok(BuildError::Taken(*pod)),
            BuildError::DirFault => Ok(BuildError::DirFault),
            BuildError::Stray => Ok(BuildError::Stray),
            BuildError::NoMemory => Ok(BuildError::NoMemory),
        }
    }
}

/// The refusal where the lock of images wasn't had.
pub(crate) fn gate_refusal(error: LockError) -> BuildError
    ensures { result ≡ gate_refusal error }
{
    match error {
        LockError::Busy => BuildError::Busy(Area::Images),
        LockError::DirFault => BuildError::DirFault,
        LockError::NoMemory => BuildError::NoMemory,
    }
}

/// The refusal where the store gives no plan of the pod.
pub(crate) fn plan_refusal(error: PlanError) -> BuildError
    ensures { result ≡ plan_refusal error }
{
    match error {
        PlanError::Damaged(path) => BuildError::Damaged(path),
        PlanError::NoMatch(place) => BuildError::NoMatch(place),
        PlanError::DepError(fault) => BuildError::DepError(fault),
        PlanError::GenError(refusal) => BuildError::GenError(refusal),
        PlanError::RenderError(refusal) => BuildError::RenderError(refusal),
        PlanError::ListingError(refusal) => BuildError::ListingError(refusal),
        PlanError::DirFault => BuildError::DirFault,
        PlanError::NoMemory => BuildError::NoMemory,
    }
}

/// The refusal where the pod wasn't made by its plan.
pub(crate) fn make_refusal(
    alloc: Global,
    plan: &[PlanEntry],
    draw: PodId,
    error: MakeError,
) -> BuildError
    requires { (place : ℕ) → error ≡ MakeError.Unlike place → place < length plan.now }
    ensures { IsMakeRefusal plan.now draw error result }
{
    match error {
        MakeError::Busy => BuildError::Busy(Area::Embryo),
        MakeError::Taken => BuildError::Taken(draw),
        MakeError::Unlike(place) => damaged(alloc, plan, place),
        MakeError::DirFault => BuildError::DirFault,
        MakeError::Stray => BuildError::Stray,
        MakeError::NoMemory => BuildError::NoMemory,
    }
}
