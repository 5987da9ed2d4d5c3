// Why some references make no pod of the images of the store.
ghost use Rattle.std.specs.Prelude.{◌≡◌};
ghost use Rattle.image_reading.specs.Refusals.{IsReadRefusal};
ghost use Rattle.pod_plan.specs.PlanRefusals.{IsAnyPath, plan_store_refusal, choice_refusal, plan_listing_refusal};

use crate::ChoiceError;
use ac_types::{NoMemory, Text};
use dep_match::DepError;
use image_reading::StoreError;
use pod_manifest::GenError;
use render::RenderError;
use tree_digest::ListingError;

/// Why some references make no pod of the images of the store.
#[derive(Drop)]
pub enum PlanError {
    /// The file at the path, which begins with an image's key, is missing or has no reading.
    Damaged(Text),
    /// No image matches the reference at that place.
    NoMatch(usize),
    /// The first fault in the dependencies of an image.
    DepError(DepError),
    /// The first refusal of the pod's manifest.
    GenError(GenError),
    /// An app's root is made of too many entries.
    RenderError(RenderError),
    /// The listing of an app's root passes a limit.
    ListingError(ListingError),
    /// The directory failed.
    DirFault,
    /// Memory ran out.
    NoMemory,
}

impl From<NoMemory> for PlanError {
    ghost use Rattle.pod_plan.specs.declared.plan_error.PlanError.TheVariants.{NoMemory as OutOfMemory};

    ghost from_gives = { λ _ e. e ≡ OutOfMemory };

    fn from(_error: NoMemory) -> PlanError {
        PlanError::NoMemory
    }
}

impl From<RenderError> for PlanError {
    ghost use Rattle.pod_plan.specs.PlanRefusals.{render_refusal};

    ghost from_gives = { λ error e. e ≡ render_refusal error };

    fn from(error: RenderError) -> PlanError {
        match error {
            RenderError::NoMemory => PlanError::NoMemory,
            error => PlanError::RenderError(error),
        }
    }
}

pub(crate) fn out_of_memory(_error: NoMemory) -> StoreError
    ensures { result ≡ StoreError.NoMemory }
{
    StoreError::NoMemory
}

pub(crate) fn no_memory(_error: NoMemory) -> PlanError
    ensures { result ≡ PlanError.NoMemory }
{
    PlanError::NoMemory
}

pub(crate) fn short_of_memory(_error: StoreError) -> NoMemory {
    NoMemory
}

/// The refusal of a read of the store.
pub(crate) fn store_refusal(error: StoreError) -> PlanError
    requires { IsReadRefusal IsAnyPath error }
    ensures { result ≡ plan_store_refusal error }
{
    match error {
        StoreError::Damaged(path) => PlanError::Damaged(path),
        StoreError::DirFault => PlanError::DirFault,
        StoreError::NoMemory => PlanError::NoMemory,
        _ => unreachable!(),
    }
}

/// The refusal of a choice.
pub(crate) fn choice_refusal(error: ChoiceError) -> PlanError
    ensures { result ≡ choice_refusal error }
{
    match error {
        ChoiceError::NoMatch(place) => PlanError::NoMatch(place),
        ChoiceError::DepError(fault) => PlanError::DepError(fault),
        ChoiceError::GenError(refusal) => PlanError::GenError(refusal),
        ChoiceError::NoMemory => PlanError::NoMemory,
    }
}

/// The refusal of a listing.
pub(crate) fn listing_refusal(error: ListingError) -> PlanError
    ensures { result ≡ plan_listing_refusal error }
{
    match error {
        ListingError::NoMemory => PlanError::NoMemory,
        error => PlanError::ListingError(error),
    }
}
