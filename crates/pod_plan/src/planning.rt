// The pod that some references make of the images of the store.
ghost use Rattle.std.specs.Prelude.{◌≡◌, ℕ, true, length, List, IfOk, IfErr, IsErrOf};
ghost use Rattle.std.specs.List.{All};
ghost use Rattle.dep_match.specs.TreeOrder.{IsOrderedTree};
ghost use Rattle.dep_match.specs.declared.stored.Stored.{Stored};
ghost use Rattle.dir_model.specs.Causes.{Rose};
ghost use Rattle.dir_model.specs.Local.{IsActive};
ghost use Rattle.folder_building.specs.Plans.{is_plan};
ghost use Rattle.image_reading.specs.Looks.{OnlyReadsImages, HoldsImages, KnowsStillNamed};
ghost use Rattle.image_reading.specs.Trees.{ReadsTreesOf};
ghost use Rattle.pod_plan.specs.Choices.{IsChoice};
ghost use Rattle.pod_manifest.specs.Wishes.{AreWishes};
ghost use Rattle.pod_plan.specs.PodPlans.{ComesInTurn, MakesWhole};
ghost use Rattle.pod_plan.specs.Plans.{PlansChoice};
ghost use Rattle.pod_plan.specs.FaithfulPods.{PlansFaithfully};
ghost use Rattle.pod_plan.specs.PickedTrees.{tree_keys, copies_no_tree, ReadsAtMostChosen, ReadsAtMostPicked};
ghost use Rattle.pod_plan.specs.RootRefusals.{IsRootsRefusal};
ghost use Rattle.pod_plan.specs.NoPlans.{IsNoPlan, IsUnplanned};

use crate::app_root::read_roots;
use crate::images::{StoreImages, read_images};
use crate::plan::plan_of;
use crate::plan_error::{PlanError, choice_refusal, no_memory, store_refusal};
use crate::{Choice, choose};
use ac_types::ImageRef;
use dir_trait::{Dir, Handle};
use folder_building::PlanEntry;
use pod_manifest::Options;
use std::alloc::Global;

/// The plan of the pod that was chosen of the images, whose roots are read now.
fn plan_chosen<D: Dir>(
    alloc: Global,
    dir: &mut D,
    read: &StoreImages,
    choice: Choice,
    refs: &[ImageRef],
    options: &Options,
    now: u64,
    token: &[u8; 16],
) -> Result<Vec<PlanEntry>, PlanError>
    requires active { IsActive (D.shown dir.old).local }
    requires whole { length read.now.manifests.items ≡ length read.now.images.items }
    requires chosen { IsChoice read.now.images.items refs.now options.now choice }
    requires ordered { All (λ t. IsOrderedTree (length read.now.images.items) t.nodes) choice.trees }
    ensures cause { IsErrOf result PlanError.DirFault → Rose (D.shown dir.old).faults (D.shown dir.new).faults }
    ensures only { OnlyReadsImages D.observed (D.shown dir.old) (D.shown dir.new) }
    ensures trees { ReadsTreesOf D.observed (tree_keys read.now.images.items choice.trees) (D.shown dir.old) (D.shown dir.new) }
    ensures made { IfOk result (λ plan. PlansChoice D.observed read.now.images.items read.now.manifests.items refs.now options.now now token.now plan.items (D.shown dir.old) (D.shown dir.new)) }
    ensures plan { IfOk result (λ plan. is_plan plan.items ≡ true) }
    ensures turn { IfOk result (λ plan. ComesInTurn now plan.items) }
    ensures whole { IfOk result (λ plan. MakesWhole plan.items) }
    ensures refused { IfErr result (λ e. IsRootsRefusal D.observed read.now.images.items choice.trees e (D.shown dir.old) (D.shown dir.new)) }
{
    let _wishes = options.volumes();
    match read_roots(alloc, dir, read.images.as_slice(), choice.trees.as_slice()) {
        Ok(roots) => plan_of(alloc, read, choice, roots, now, token).map_err(no_memory),
        Err(error) => Err(error),
    }
}

/// The plan of the pod that the references make of the images.
fn plan_read<D: Dir>(
    alloc: Global,
    dir: &mut D,
    read: &StoreImages,
    refs: &[ImageRef],
    options: &Options,
    now: u64,
    token: &[u8; 16],
) -> Result<Vec<PlanEntry>, PlanError>
    requires active { IsActive (D.shown dir.old).local }
    requires whole { length read.now.manifests.items ≡ length read.now.images.items }
    ensures cause { IsErrOf result PlanError.DirFault → Rose (D.shown dir.old).faults (D.shown dir.new).faults }
    ensures only { OnlyReadsImages D.observed (D.shown dir.old) (D.shown dir.new) }
    ensures trees { ReadsAtMostChosen D.observed read.now.images.items refs.now options.now (D.shown dir.old) (D.shown dir.new) }
    ensures made { IfOk result (λ plan. PlansChoice D.observed read.now.images.items read.now.manifests.items refs.now options.now now token.now plan.items (D.shown dir.old) (D.shown dir.new)) }
    ensures plan { IfOk result (λ plan. is_plan plan.items ≡ true) }
    ensures turn { IfOk result (λ plan. ComesInTurn now plan.items) }
    ensures whole { IfOk result (λ plan. MakesWhole plan.items) }
    ensures refused { IfErr result (λ e. IsUnplanned D.observed read.now.images.items refs.now options.now e (D.shown dir.old) (D.shown dir.new)) }
{
    match choose(alloc, read.images.as_slice(), refs, options) {
        Ok(choice) => plan_chosen(alloc, dir, read, choice, refs, options, now, token),
        Err(error) => Err(choice_refusal(error)),
    }
}

/// The plan of the folder of a pod of which each app is of the best image of the store that a reference
/// matches, as the store is read. The handle holds the lock of the images' area. Nothing is changed. Listings
/// are read of the images alone of which apps are made, each when its entries are laid.
///
/// The first refusal otherwise: `Damaged` at the first file of the store that is missing or has no reading,
/// each image being listed first and then the manifest of each read by key; `NoMatch` for the first reference
/// that no image matches; `DepError` for the first fault in the dependencies of an image; `GenError` for the
/// first refusal of the pod's manifest. Then for the apps in their order: `Damaged` for the first listing that
/// is missing or has no reading, of those that the app's root is laid of, a node's before its children's and
/// those from the last to the first; `RenderError` where the listing that was just read makes too many
/// entries; `ListingError` where the root's own listing is too large. `DirFault` where the directory failed,
/// `NoMemory` where memory ran out.
pub fn plan_pod<D: Dir>(
    alloc: Global,
    dir: &mut D,
    gate: Handle,
    refs: &[ImageRef],
    options: &Options,
    now: u64,
    token: &[u8; 16],
) -> Result<Vec<PlanEntry>, PlanError>
    requires active { IsActive (D.shown dir.old).local }
    requires held { HoldsImages (D.shown dir.old).local gate }
    ensures cause { IsErrOf result PlanError.DirFault → Rose (D.shown dir.old).faults (D.shown dir.new).faults }
    ensures only { OnlyReadsImages D.observed (D.shown dir.old) (D.shown dir.new) }
    ensures trees { ReadsAtMostPicked D.observed refs.now options.now (D.shown dir.old) (D.shown dir.new) }
    ensures copies { IfOk result (λ plan. copies_no_tree plan.items ≡ true) }
    ensures known { D.observed ≡ true → KnowsStillNamed (D.shown dir.old) (D.shown dir.new) }
    ensures refused { IfErr result (IsNoPlan D.observed refs.now options.now (D.shown dir.old) (D.shown dir.new)) }
    ensures made { IfOk result (λ plan. (images : List Stored) × (manifests : List (List ℕ))
        × PlansChoice D.observed images manifests refs.now options.now now token.now plan.items (D.shown dir.old) (D.shown dir.new)) }
    ensures plan { IfOk result (λ plan. is_plan plan.items ≡ true) }
    ensures turn { IfOk result (λ plan. ComesInTurn now plan.items) }
    ensures whole { IfOk result (λ plan. MakesWhole plan.items) }
    ensures faithful { IfOk result (λ plan. D.observed ≡ true
        → PlansFaithfully refs.now options.now now token.now plan.items (D.shown dir.old) (D.shown dir.new)) }
{
    match read_images(alloc, dir, gate) {
        Ok(read) => plan_read(alloc, dir, &read, refs, options, now, token),
        Err(error) => Err(store_refusal(error)),
    }
}
