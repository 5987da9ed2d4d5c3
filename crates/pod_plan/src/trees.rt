// The tree of dependencies of each image.
ghost use Rattle.std.specs.Prelude.{◌≡◌, ◌<◌, length, Ok, IfOk, IfErr};
ghost use Rattle.std.specs.List.{All};
ghost use Rattle.dep_match.specs.Dependencies.{dependency_tree};
ghost use Rattle.dep_match.specs.TreeOrder.{IsOrderedTree};
ghost use Rattle.pod_plan.specs.Choices.{AreTrees, IsNoTree, IsChoiceTreeRefusal};

use crate::choice_error::{ChoiceError, tree_refusal};
use ac_types::Sequence;
use dep_match::{DepTree, Stored, closure};
use std::alloc::Global;

fn tree_of(alloc: Global, list: &[Stored], pick: usize) -> Result<DepTree, ChoiceError>
    requires within { pick < length list.now }
    ensures tree { IfOk result (λ tree. dependency_tree list.now pick ≡ Ok tree.nodes) }
    ensures ordered { IfOk result (λ tree. IsOrderedTree (length list.now) tree.nodes) }
    ensures refused { IfErr result (IsNoTree list.now pick) }
{
    match closure(alloc, list, pick) {
        Ok(tree) => Ok(tree),
        Err(error) => Err(tree_refusal(error)),
    }
}

/// The trees of the images at those places.
pub(crate) fn trees_of(
    alloc: Global,
    list: &[Stored],
    picks: &[usize],
) -> Result<Sequence<DepTree>, ChoiceError>
    requires within { All (λ i. i < length list.now) picks.now }
    ensures trees { IfOk result (λ trees. AreTrees list.now picks.now trees) }
    ensures ordered { IfOk result (λ trees. All (λ t. IsOrderedTree (length list.now) t.nodes) trees) }
    ensures refused { IfErr result (IsChoiceTreeRefusal list.now picks.now) }
{
    let mut trees = Sequence::new(alloc);
    'picks: for pick in picks {
        let tree = tree_of(alloc, list, *pick)?;
        trees = trees.push(tree)?;
    }
    Ok(trees)
}
