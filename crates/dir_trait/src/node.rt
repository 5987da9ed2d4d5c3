// What stands at a path of a bundle.
ghost use Rattle.std.specs.Prelude.{◌≡◌, Some};
ghost use Rattle.std.specs.Option.{option_copied};
ghost use Rattle.dir_trait.specs.Bundles.{bundle_kind_of, bytes_of_node, link_target};

use crate::bundle::BundleKind;
use dir_model::Bytes;

/// A directory, a file with its bytes, a symbolic link with its target, or another thing.
#[derive(Drop)]
pub enum Node {
    Directory,
    File(Bytes),
    Link(Bytes),
    Other,
}

impl Node {
    /// Its kind.
    pub fn kind(&self) -> BundleKind
        ensures { result ≡ bundle_kind_of self.now }
    {
        match self {
            Node::Directory => BundleKind::Dir,
            Node::File(_) => BundleKind::File,
            Node::Link(_) => BundleKind::Link,
            Node::Other => BundleKind::Other,
        }
    }

    /// A file's bytes.
    pub fn bytes(&self) -> Option<&[u8]>
        ensures { option_copied result ≡ bytes_of_node (Some self.now) }
    {
        match self {
            Node::File(bytes) => Some(bytes.as_slice()),
            Node::Directory | Node::Link(_) | Node::Other => None,
        }
    }

    /// A link's target.
    pub fn target(&self) -> Option<&[u8]>
        ensures { option_copied result ≡ link_target (Some self.now) }
    {
        match self {
            Node::Link(target) => Some(target.as_slice()),
            Node::Directory | Node::File(_) | Node::Other => None,
        }
    }
}
