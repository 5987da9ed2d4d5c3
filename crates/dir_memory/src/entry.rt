// What was put into a bundle in memory, and what stands there by it.
ghost use Rattle.std.specs.Prelude.{◌≡◌, ◌<◌, find, length, Some, IsTrue};
ghost use Rattle.std.specs.Option.{option_copied};
ghost use Rattle.dir_trait.specs.Bundles.{kind_at, bytes_of_node, link_target};
ghost use Rattle.dir_memory.specs.MemoryBundles.{is_bundle_directory, empty_bundle, is_decisive, decided_node, own_node, bundle_tree_of};

use dir_model::lies_below;
use dir_trait::{BundleKind, Bytes, Node};

/// A node that was put at a path.
#[derive(Drop)]
pub struct Entry {
    pub path: Bytes,
    pub node: Node,
}

fn is_directory(node: &Node) -> bool
    ensures { result ≡ is_bundle_directory node.now }
{
    matches!(node, Node::Directory)
}

fn is_decisive(path: &[u8], entry: &Entry) -> bool
    ensures { result ≡ is_decisive path.now entry.now }
{
    let own = entry.path.as_slice();
    let covers = !is_directory(&entry.node) && lies_below(path, own);
    own == path || lies_below(own, path) || covers
}

/// The newest entry that decides what stands at a path.
fn newest<'a>(entries: &'a [Entry], path: &[u8]) -> Option<&'a Entry>
    ensures { option_copied result ≡ find (is_decisive path.now) entries.now }
{
    entries.iter().find(|entry| is_decisive(path, entry))
}

fn decided_kind(entry: &Entry, path: &[u8]) -> Option<BundleKind>
    ensures { result ≡ kind_at (decided_node (Some entry.now) path.now) }
{
    let own = entry.path.as_slice();
    if own == path {
        return Some(entry.node.kind());
    }
    lies_below(own, path).then_some(BundleKind::Dir)
}

fn root_kind(path: &[u8]) -> Option<BundleKind>
    ensures { result ≡ kind_at (empty_bundle path.now) }
{
    path.is_empty().then_some(BundleKind::Dir)
}

/// The kind of what stands at a path.
pub fn kind_at(entries: &[Entry], path: &[u8]) -> Option<BundleKind>
    ensures { result ≡ kind_at (bundle_tree_of entries.now path.now) }
{
    match newest(entries, path) {
        Some(entry) => decided_kind(entry, path),
        None => root_kind(path),
    }
}

/// The node that was put at the path itself and stands there.
fn own_node<'a>(entries: &'a [Entry], path: &[u8]) -> Option<&'a Node>
    ensures { option_copied result ≡ own_node (find (is_decisive path.now) entries.now) path.now }
{
    let entry = newest(entries, path)?;
    (entry.path.as_slice() == path).then_some(&entry.node)
}

/// The bytes of the file at a path.
pub fn file_at<'a>(entries: &'a [Entry], path: &[u8]) -> Option<&'a [u8]>
    ensures { option_copied result ≡ bytes_of_node (bundle_tree_of entries.now path.now) }
{
    let node = own_node(entries, path)?;
    node.bytes()
}

/// The target of the symbolic link at a path.
pub fn link_at<'a>(entries: &'a [Entry], path: &[u8]) -> Option<&'a [u8]>
    ensures { option_copied result ≡ link_target (bundle_tree_of entries.now path.now) }
{
    let node = own_node(entries, path)?;
    node.target()
}
