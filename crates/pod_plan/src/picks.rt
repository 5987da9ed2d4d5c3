// The best image for each reference.
ghost use Rattle.std.specs.Prelude.{◌≡◌, ◌<◌, length, Some, None, IfOk, IfErr};
ghost use Rattle.std.specs.List.{All};
ghost use Rattle.pod_plan.specs.Choices.{best_of, ArePicks, IsPickRefusal};

use crate::choice_error::ChoiceError;
use ac_types::{ImageRef, Sequence};
use dep_match::{Places, Stored, best};
use std::alloc::Global;

fn pick(list: &[Stored], wanted: &ImageRef, place: usize) -> Result<usize, ChoiceError>
    ensures picked { IfOk result (λ image. best_of list.now wanted.now ≡ Some image) }
    ensures within { IfOk result (λ image. image < length list.now) }
    ensures refused { IfErr result (λ e. (e ≡ ChoiceError.NoMatch place) × (best_of list.now wanted.now ≡ None)) }
{
    match best(list, wanted) {
        Some(image) => Ok(image),
        None => Err(ChoiceError::NoMatch(place)),
    }
}

/// The best image for each reference, as places in the list.
pub(crate) fn picks_of(
    alloc: Global,
    list: &[Stored],
    refs: &[ImageRef],
) -> Result<Places, ChoiceError>
    ensures picked { IfOk result (λ picks. ArePicks list.now refs.now picks) }
    ensures within { IfOk result (λ picks. All (λ i. i < length list.now) picks) }
    ensures refused { IfErr result (IsPickRefusal list.now refs.now) }
{
    let mut picks = Sequence::new(alloc);
    'refs: for wanted in refs {
        let image = pick(list, wanted, picks.len())?;
        picks = picks.push(image)?;
    }
    Ok(picks)
}
