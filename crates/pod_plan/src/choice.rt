// The pod of some references.
ghost use Rattle.std.specs.Prelude.{◌≡◌, ◌<◌, length, IfOk, IfErr};
ghost use Rattle.std.specs.List.{All};
ghost use Rattle.dep_match.specs.TreeOrder.{IsOrderedTree};
ghost use Rattle.pod_plan.specs.Choices.{IsChosenPod, IsPodRefusal, IsChoice, IsChoiceRefused};

use crate::choice_error::{ChoiceError, manifest_refusal};
use crate::picks::picks_of;
use crate::trees::trees_of;
use ac_types::{ImageRef, Sequence};
use dep_match::{DepTree, Places, Stored};
use manifests::PodManifest;
use pod_manifest::{Options, generate};
use std::alloc::Global;

/// A pod, before its apps' roots are rendered.
#[derive(Drop)]
pub struct Choice {
    /// The image of each app, as its place in the list.
    pub picks: Places,
    /// The tree of dependencies of each app's image, in the same order.
    pub trees: Sequence<DepTree>,
    pub manifest: PodManifest,
}

// The pod of the images at those places.
fn choose_picked(
    alloc: Global,
    list: &[Stored],
    picks: Places,
    options: &Options,
) -> Result<Choice, ChoiceError>
    requires within { All (λ i. i < length list.now) picks }
    ensures picks { IfOk result (λ c. c.picks ≡ picks) }
    ensures pod { IfOk result (IsChosenPod list.now options.now) }
    ensures ordered { IfOk result (λ c. All (λ t. IsOrderedTree (length list.now) t.nodes) c.trees) }
    ensures refused { IfErr result (IsPodRefusal list.now options.now picks) }
{
    let trees = trees_of(alloc, list, picks.as_slice())?;
    match generate(alloc, list, picks.as_slice(), options) {
        Ok(manifest) => Ok(Choice {
            picks,
            trees,
            manifest,
        }),
        Err(error) => Err(manifest_refusal(error)),
    }
}

/// The pod of the references: for each, in their order, an app of the best image that it matches, with
/// the tree of that image's dependencies.
///
/// The first refusal otherwise: `NoMatch` for the first reference that no image matches; `DepError` for
/// the first fault in the dependencies of an image; `GenError` as [`generate`] has them. `NoMemory` at
/// any time.
pub fn choose(
    alloc: Global,
    list: &[Stored],
    refs: &[ImageRef],
    options: &Options,
) -> Result<Choice, ChoiceError>
    ensures ok { IfOk result (IsChoice list.now refs.now options.now) }
    ensures ordered { IfOk result (λ c. All (λ t. IsOrderedTree (length list.now) t.nodes) c.trees) }
    ensures refused { IfErr result (IsChoiceRefused list.now refs.now options.now) }
{
    let picks = picks_of(alloc, list, refs)?;
    choose_picked(alloc, list, picks, options)
}
