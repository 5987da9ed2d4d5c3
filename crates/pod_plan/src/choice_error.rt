// Why some references make no pod.
ghost use Rattle.std.specs.Prelude.{◌≡◌};
ghost use Rattle.pod_plan.specs.ChoiceRefusals.{tree_refusal, choice_manifest_refusal};

use ac_types::NoMemory;
use dep_match::DepError;
use pod_manifest::GenError;

/// Why some references make no pod.
#[derive(Drop)]
pub enum ChoiceError {
    /// No image matches the reference at that place.
    NoMatch(usize),
    /// The first fault in the dependencies of an image.
    DepError(DepError),
    /// The first refusal of the pod's manifest.
    GenError(GenError),
    /// Memory ran out.
    NoMemory,
}

impl From<NoMemory> for ChoiceError {
    ghost use Rattle.pod_plan.specs.declared.choice_error.ChoiceError.TheVariants.{NoMemory as OutOfMemory};

    ghost from_gives = { λ _ e. e ≡ OutOfMemory };

    fn from(_error: NoMemory) -> ChoiceError {
        ChoiceError::NoMemory
    }
}

pub(crate) fn tree_refusal(error: DepError) -> ChoiceError
    ensures { result ≡ tree_refusal error }
{
    match error {
        DepError::NoMemory => ChoiceError::NoMemory,
        error => ChoiceError::DepError(error),
    }
}

pub(crate) fn manifest_refusal(error: GenError) -> ChoiceError
    ensures { result ≡ choice_manifest_refusal error }
{
    match error {
        GenError::NoMemory => ChoiceError::NoMemory,
        error => ChoiceError::GenError(error),
    }
}
