// The roots of apps.
ghost use Rattle.std.specs.Prelude.{◌≡◌, length, IfOk, IfErr, IsErrOf};
ghost use Rattle.std.specs.List.{All};
ghost use Rattle.path_map.specs.Entries.{entry_at};
ghost use Rattle.tree_digest.specs.Listings.{AreListable, IsListing, lines_of};
ghost use Rattle.dep_match.specs.TreeOrder.{IsOrderedTree};
ghost use Rattle.dir_model.specs.Causes.{Rose};
ghost use Rattle.dir_model.specs.Local.{IsActive};
ghost use Rattle.image_reading.specs.Looks.{OnlyReadsImages};
ghost use Rattle.image_reading.specs.Trees.{ReadsTreesOf};
ghost use Rattle.pod_plan.specs.Roots.{ComesOnce, IsRootAsRead, AreImageRoots};
ghost use Rattle.pod_plan.specs.PickedTrees.{node_keys, tree_keys};
ghost use Rattle.pod_plan.specs.RootRefusals.{IsListingRefusal, IsRootRefusal, IsRootsRefusal};

use crate::laying::read_rendering;
use crate::plan_error::{PlanError, listing_refusal};
use ac_types::Sequence;
use dep_match::{DepTree, Stored};
use dir_trait::Dir;
use render::Rendering;
use std::alloc::Global;
use tree_digest::Listing;

/// What an app's root holds.
#[derive(Drop)]
pub(crate) struct Root {
    /// What stands at its paths, and from which image each file is.
    pub rendering: Rendering,
    /// The listing of that.
    pub listing: Listing,
}

/// The rendering with its listing.
fn listed(alloc: Global, rendering: Rendering) -> Result<Root, PlanError>
    requires listable { AreListable (entry_at rendering.map) }
    ensures rendering { IfOk result (λ root. root.rendering ≡ rendering) }
    ensures listing { IfOk result (λ root. root.listing ≡ lines_of rendering.map) }
    ensures kind { IfOk result (λ root. IsListing root.listing) }
    ensures refused { IfErr result (IsListingRefusal rendering.map) }
{
    match Listing::of_map(alloc, rendering.map()) {
        Ok(listing) => {
            // The clause of `as_slice` says that its lines are a listing.
            let _lines = listing.as_slice();
            Ok(Root { rendering, listing })
        }
        Err(error) => Err(listing_refusal(error)),
    }
}

/// The root of the image with that tree of dependencies.
fn read_root<D: Dir>(
    alloc: Global,
    dir: &mut D,
    images: &[Stored],
    tree: &DepTree,
) -> Result<Root, PlanError>
    requires active { IsActive (D.shown dir.old).local }
    requires tree { IsOrderedTree (length images.now) tree.now.nodes }
    requires once { ComesOnce tree.now.nodes }
    ensures cause { IsErrOf result PlanError.DirFault → Rose (D.shown dir.old).faults (D.shown dir.new).faults }
    ensures only { OnlyReadsImages D.observed (D.shown dir.old) (D.shown dir.new) }
    ensures trees { ReadsTreesOf D.observed (node_keys images.now tree.now.nodes) (D.shown dir.old) (D.shown dir.new) }
    ensures root { IfOk result (λ root. IsRootAsRead D.observed images.now (D.shown dir.old) (D.shown dir.new) tree.now root) }
    ensures refused { IfErr result (λ e. IsRootRefusal D.observed images.now tree.now.nodes e (D.shown dir.old) (D.shown dir.new)) }
{
    match read_rendering(alloc, dir, images, tree) {
        Ok(rendering) => listed(alloc, rendering),
        Err(error) => Err(error),
    }
}

/// The roots of the images with those trees.
pub(crate) fn read_roots<D: Dir>(
    alloc: Global,
    dir: &mut D,
    images: &[Stored],
    trees: &[DepTree],
) -> Result<Sequence<Root>, PlanError>
    requires active { IsActive (D.shown dir.old).local }
    requires trees { All (λ t. IsOrderedTree (length images.now) t.nodes) trees.now }
    requires once { All (λ t. ComesOnce t.nodes) trees.now }
    ensures cause { IsErrOf result PlanError.DirFault → Rose (D.shown dir.old).faults (D.shown dir.new).faults }
    ensures only { OnlyReadsImages D.observed (D.shown dir.old) (D.shown dir.new) }
    ensures trees { ReadsTreesOf D.observed (tree_keys images.now trees.now) (D.shown dir.old) (D.shown dir.new) }
    ensures roots { IfOk result (λ roots. AreImageRoots D.observed images.now (D.shown dir.old) (D.shown dir.new) trees.now roots) }
    ensures refused { IfErr result (λ e. IsRootsRefusal D.observed images.now trees.now e (D.shown dir.old) (D.shown dir.new)) }
{
    let mut roots = Sequence::new(alloc);
    'trees: for tree in trees {
        let root = read_root(alloc, dir, images, tree)?;
        roots = roots.push(root)?;
    }
    Ok(roots)
}
