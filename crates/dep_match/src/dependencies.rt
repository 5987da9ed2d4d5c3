//! The tree of an image's dependencies.

ghost use Rattle.std.specs.Prelude.{◌≡◌, ℕ, ◌<◌, ◌≤◌, ◌+◌, ◌++◌, ◌∷◌, [], length, IfOk, IfErr};
ghost use Rattle.dep_match.specs.Dependencies.{dependencies_at, dependency_tree, next_image, subtree, IsFault};
ghost use Rattle.dep_match.specs.TreeOrder.{IsOrderedTree, HasBestChildren, node_at};

use crate::dep_error::DepError;
use crate::dep_tree::{DepNode, DepTree};
use crate::refusals::{MAX_DEPTH, MAX_NODES};
use crate::selection::best_dependency;
use crate::stored::Stored;
use ac_types::{NoMemory, Sequence};
use manifests::Dependency;
use std::alloc::Global;

/// The tree of the image at place `top`: each node's dependencies become its child nodes, in
/// their order and depth first, each by the image that `best_dependency` gives. At each dependency
/// in turn, with the first fault of the whole way as the answer: `NoDependency` where there is no
/// image, `Cycle` where the image is on the way from the top, `TooDeep` where it would be the
/// 33rd on that way, `TooMany` where it would be the 257th node. `NoMemory` at any time.
pub fn closure(alloc: Global, list: &[Stored], top: usize) -> Result<DepTree, DepError>
    requires { top < length list.now }
    ensures ok { IfOk result (λ tree. dependency_tree list.now top ≡ Ok tree.nodes) }
    ensures order { IfOk result (λ tree. IsOrderedTree (length list.now) tree.nodes) }
    ensures top { IfOk result (λ tree. (node_at tree.nodes 0).image ≡ top) }
    ensures few { IfOk result (λ tree. length tree.nodes ≤ MAX_NODES) }
    ensures best { IfOk result (λ tree. (n : ℕ) → n < length tree.nodes → HasBestChildren list.now tree.nodes n) }
    ensures err { IfErr result (IsFault (dependency_tree list.now top)) }
{
    let nodes = subtree(alloc, list, &[], top, 0, MAX_DEPTH)?;
    Ok(DepTree {
        nodes: Sequence::from_vec(nodes),
    })
}

/// The nodes of an image's tree, numbered from `number` on, of so many levels at most.
fn subtree(
    alloc: Global,
    list: &[Stored],
    above: &[usize],
    image: usize,
    number: usize,
    levels: usize,
) -> Result<Vec<DepNode>, DepError>
    requires within { image < length list.now }
    requires few { number < MAX_NODES }
    requires deep { 0 < levels }
    ensures ok { IfOk result (λ nodes. subtree levels list.now above.now number image ≡ Ok nodes.items) }
    ensures few { IfOk result (λ nodes. number + length nodes.items ≤ MAX_NODES) }
    ensures err { IfErr result (IsFault (subtree levels list.now above.now number image)) }
{
    let way = with_last(alloc, above, image)?;
    let dependencies = dependencies_at(list, image);
    let mut children = Sequence::new(alloc);
    let mut below = Vec::new(alloc);
    for dependency in dependencies {
        let child = number + 1 + below.len();
        let found = next_image(list, way.as_slice(), dependency, child, levels - 1)?;
        let nodes = subtree(alloc, list, way.as_slice(), found, child, levels - 1)?;
        children = children.push(child)?;
        below = joined(below, nodes)?;
    }
    Ok(with_root(alloc, DepNode { image, children }, below)?)
}

/// The image of a dependency, or its fault, where the way from the top leads to its dependent.
fn next_image(
    list: &[Stored],
    way: &[usize],
    dependency: &Dependency,
    made: usize,
    levels: usize,
) -> Result<usize, DepError>
    ensures ok { IfOk result (λ i. next_image list.now way.now levels made dependency.now ≡ Ok i) }
    ensures within { IfOk result (λ i. i < length list.now) }
    ensures few { IfOk result (λ _. made < MAX_NODES) }
    ensures deep { IfOk result (λ _. 0 < levels) }
    ensures err { IfErr result (IsFault (next_image list.now way.now levels made dependency.now)) }
{
    let Some(image) = best_dependency(list, dependency) else {
        return Err(DepError::NoDependency(dependency.image_name.copy()?));
    };
    if way.contains(&image) {
        return Err(DepError::Cycle(list[image].key));
    }
    if levels == 0 {
        return Err(DepError::TooDeep);
    }
    if made >= MAX_NODES {
        return Err(DepError::TooMany);
    }
    Ok(image)
}

fn dependencies_at(list: &[Stored], image: usize) -> &[Dependency]
    requires { image < length list.now }
    ensures { result.now ≡ dependencies_at list.now image }
{
    list[image].manifest.dependencies.as_slice()
}

fn with_last(alloc: Global, above: &[usize], image: usize) -> Result<Vec<usize>, NoMemory>
    ensures { IfOk result (λ way. way.items ≡ above.now ++ image ∷ []) }
{
    let mut way = Vec::from_slice(alloc, above)?;
    way.push(image)?;
    Ok(way)
}

fn with_root(alloc: Global, root: DepNode, below: Vec<DepNode>) -> Result<Vec<DepNode>, NoMemory>
    ensures { IfOk result (λ nodes. nodes.items ≡ root ∷ below.items) }
{
    let mut nodes = Vec::new(alloc);
    nodes.push(root)?;
    joined(nodes, below)
}

fn joined(nodes: Vec<DepNode>, more: Vec<DepNode>) -> Result<Vec<DepNode>, NoMemory>
    ensures { IfOk result (λ all. all.items ≡ nodes.items ++ more.items) }
{
    let mut all = nodes;
    for node in more {
        all.push(node)?;
    }
    Ok(all)
}
