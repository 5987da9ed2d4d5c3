// The rendering of an image's tree, of listings that are read one after the other.
ghost use Rattle.std.specs.Prelude.{◌≡◌, ◌<◌, ◌∷◌, [], None, length, IfOk, IfErr, IsErrOf};
ghost use Rattle.path_map.specs.Entries.{entry_at, IsPathMap};
ghost use Rattle.tree_digest.specs.Listings.{AreListable, entries_of};
ghost use Rattle.dep_match.specs.TreeOrder.{IsOrderedTree};
ghost use Rattle.render.specs.PlanStates.{IsPlan};
ghost use Rattle.dir_model.specs.Causes.{Rose};
ghost use Rattle.dir_model.specs.Local.{IsActive};
ghost use Rattle.image_reading.specs.Looks.{OnlyReadsImage, OnlyReadsImages};
ghost use Rattle.image_reading.specs.Trees.{ReadsTreesOf};
ghost use Rattle.pod_plan.specs.Readings.{KnowsTree};
ghost use Rattle.pod_plan.specs.Roots.{ComesOnce, LaysNext, IsRendered};
ghost use Rattle.pod_plan.specs.PickedTrees.{node_keys};
ghost use Rattle.pod_plan.specs.PlanRefusals.{IsStoreLack, LacksTreeAt};
ghost use Rattle.pod_plan.specs.RootRefusals.{IsLayRefusal, IsRenderingRefusal};

use crate::plan_error::{PlanError, out_of_memory, store_refusal};
use ac_types::{NoMemory, StoreKey};
use dep_match::{DepTree, Stored};
use dir_trait::Dir;
use image_reading::{StoreError, read_listing};
use path_map::PathMap;
use render::{Plan, Rendering};
use std::alloc::Global;
use tree_digest::Listing;

/// The map of a listing.
fn map_of(alloc: Global, listing: &Listing) -> Result<PathMap, NoMemory>
    ensures map { IfOk result (λ map. map ≡ entries_of listing.now) }
    ensures kind { IfOk result (λ map. IsPathMap map) }
    ensures listable { IfOk result (λ map. AreListable (entry_at map)) }
{
    let map = listing.to_map(alloc)?;
    // The clause of `iter` says that its paths rise.
    let _entries = map.iter();
    Ok(map)
}

/// The tree of an image.
fn read_map<D: Dir>(alloc: Global, dir: &mut D, key: StoreKey) -> Result<PathMap, StoreError>
    requires active { IsActive (D.shown dir.old).local }
    ensures cause { IsErrOf result StoreError.DirFault → Rose (D.shown dir.old).faults (D.shown dir.new).faults }
    ensures only { OnlyReadsImage D.observed key (D.shown dir.old) (D.shown dir.new) }
    ensures known { IfOk result (λ map. KnowsTree D.observed key map (D.shown dir.old) (D.shown dir.new)) }
    ensures lacks { IfErr result (IsStoreLack D.observed (λ path. LacksTreeAt key path (D.shown dir.old) (D.shown dir.new))) }
{
    match read_listing(alloc, dir, key) {
        Ok(listing) => map_of(alloc, &listing).map_err(out_of_memory),
        Err(error) => Err(error),
    }
}

/// Reads the tree of an image, and lays it as the next of a plan. `Damaged` where its listing is missing or
/// has no reading, `RenderError` where it has more entries than there is room for.
fn lay_next<D: Dir>(
    alloc: Global,
    dir: &mut D,
    key: StoreKey,
    plan: Plan,
) -> Result<Plan, PlanError>
    requires active { IsActive (D.shown dir.old).local }
    requires sound { IsPlan plan }
    requires wanted { plan.whole ≡ None }
    ensures cause { IsErrOf result PlanError.DirFault → Rose (D.shown dir.old).faults (D.shown dir.new).faults }
    ensures only { OnlyReadsImages D.observed (D.shown dir.old) (D.shown dir.new) }
    ensures trees { ReadsTreesOf D.observed (key ∷ []) (D.shown dir.old) (D.shown dir.new) }
    ensures laid { IfOk result (λ new. LaysNext D.observed key plan new (D.shown dir.old) (D.shown dir.new)) }
    ensures refused { IfErr result (λ e. IsLayRefusal D.observed key plan e (D.shown dir.old) (D.shown dir.new)) }
{
    match read_map(alloc, dir, key) {
        Ok(map) => Ok(plan.lay(&map)?),
        Err(error) => Err(store_refusal(error)),
    }
}

/// The rendering of an image's tree. The listing of each node's image is read when it is wanted, and dropped
/// before the next is read.
pub(crate) fn read_rendering<D: Dir>(
    alloc: Global,
    dir: &mut D,
    images: &[Stored],
    tree: &DepTree,
) -> Result<Rendering, PlanError>
    requires active { IsActive (D.shown dir.old).local }
    requires tree { IsOrderedTree (length images.now) tree.now.nodes }
    requires once { ComesOnce tree.now.nodes }
    ensures cause { IsErrOf result PlanError.DirFault → Rose (D.shown dir.old).faults (D.shown dir.new).faults }
    ensures only { OnlyReadsImages D.observed (D.shown dir.old) (D.shown dir.new) }
    ensures trees { ReadsTreesOf D.observed (node_keys images.now tree.now.nodes) (D.shown dir.old) (D.shown dir.new) }
    ensures rendered { IfOk result (λ r. IsRendered D.observed images.now tree.now.nodes r (D.shown dir.old) (D.shown dir.new)) }
    ensures refused { IfErr result (λ e. IsRenderingRefusal D.observed images.now tree.now.nodes e (D.shown dir.old) (D.shown dir.new)) }
{
    let mut plan = Plan::open(alloc, tree, images)?;
    'maps: while let Some(image) = plan.wanted() {
        plan = lay_next(alloc, dir, images[image].key, plan)?;
    }
    Ok(plan.finish())
}
