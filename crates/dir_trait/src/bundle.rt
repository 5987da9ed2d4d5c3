// A bundle: a tree of files that is read and never changed.
ghost use Rattle.std.specs.Prelude.{◌≡◌, ◌≢◌, ◌≤◌, Bool, true, length, None, Some, IfOk, IsErrOf, IsSomeAnd};
ghost use Rattle.dir_model.specs.Causes.{Rose};
ghost use Rattle.dir_trait.specs.Bundles.{kind_at, bytes_of_node, link_target, bytes_given, Fills, IsBundleListing, Lists, BundleCall, request_at};

use dir_model::{Bytes, FileName, Sequence};
use std::alloc::Global;

/// Why a bundle gave nothing.
#[derive(Clone, Copy, Debug, PartialEq, Eq)]
pub enum BundleError {
    /// Nothing of the wanted kind stands at the path.
    Missing,
    /// The bundle failed.
    Failed,
    /// Memory ran out.
    NoMemory,
}

/// What kind of thing stands at a path. A symbolic link isn't followed.
#[derive(Clone, Copy, Debug, PartialEq, Eq)]
pub enum BundleKind {
    Dir,
    File,
    Link,
    /// Neither of these, as a device or a socket.
    Other,
}

/// What a listing tells of one entry of a directory.
#[derive(Clone, Copy, PartialEq, Eq)]
pub struct BundleItem {
    pub name: FileName,
    pub kind: BundleKind,
}

/// The entries of a directory.
pub type BundleItems = Sequence<BundleItem>;

/// What a call of a bundle does.
#[derive(Clone, Copy, Debug, PartialEq, Eq)]
pub enum BundleAction {
    Read,
    ReadLink,
    List,
}

/// What a bundle is asked for: what to do, and at which path.
#[derive(Drop)]
pub struct BundleRequest {
    pub action: BundleAction,
    pub path: Bytes,
}

/// A tree of files that is read and never changed. The empty path names its own root.
pub trait Bundle {
    ghost use Rattle.dir_trait.specs.Bundles.{BundleAt};

    /// Whether its tree is observed. A bundle of the host observes none.
    ghost observed: { Bool };

    /// What it shows at a moment: its faults and the bytes that it gave, and where it is observed what
    /// stands at each path and what it was asked for.
    ghost shown: { Self → BundleAt };

    /// How often the bundle failed so far. The count never falls.
    fn faults(&self) -> u64
        ensures { result ≡ (shown self.now).faults };

    /// Fills the room with the bytes of the file at a path, from byte `at` on, and answers how many it
    /// filled: fewer than the room has only at the file's end. `Missing` where no file stands there.
    fn read(
        &mut self,
        alloc: Global,
        path: &str,
        at: u64,
        room: &mut [u8],
    ) -> Result<usize, BundleError>
        ensures cause { IsErrOf result BundleError.Failed → Rose (shown self.old).faults (shown self.new).faults }
        ensures most { IfOk result (λ n. n ≤ length room.old) }
        ensures read { IfOk result (λ n. observed ≡ true
            → IsSomeAnd (bytes_of_node ((shown self.old).tree path.now)) (λ bytes. Fills bytes at room.old n room.new)) }
        ensures missing { IsErrOf result BundleError.Missing → observed ≡ true → bytes_of_node ((shown self.old).tree path.now) ≡ None }
        ensures called { BundleCall observed (shown self.old) (request_at BundleAction.Read path.now) (bytes_given result) (shown self.new) };

    /// Fills the room with the target of the symbolic link at a path, as far as it fits, and answers how
    /// many bytes it filled. `Missing` where no link stands there.
    fn read_link(
        &mut self,
        alloc: Global,
        path: &str,
        room: &mut [u8],
    ) -> Result<usize, BundleError>
        ensures cause { IsErrOf result BundleError.Failed → Rose (shown self.old).faults (shown self.new).faults }
        ensures most { IfOk result (λ n. n ≤ length room.old) }
        ensures read { IfOk result (λ n. observed ≡ true
            → IsSomeAnd (link_target ((shown self.old).tree path.now)) (λ target. Fills target 0 room.old n room.new)) }
        ensures missing { IsErrOf result BundleError.Missing → observed ≡ true → link_target ((shown self.old).tree path.now) ≡ None }
        ensures called { BundleCall observed (shown self.old) (request_at BundleAction.ReadLink path.now) (bytes_given result) (shown self.new) };

    /// The entries of the directory at a path, in byte order of their names, each name once. `Missing`
    /// where no directory stands there.
    fn list(&mut self, alloc: Global, path: &str) -> Result<BundleItems, BundleError>
        ensures cause { IsErrOf result BundleError.Failed → Rose (shown self.old).faults (shown self.new).faults }
        ensures ordered { IfOk result IsBundleListing }
        ensures listed { IfOk result (λ items. observed ≡ true → Lists (shown self.old).tree path.now items) }
        ensures missing { IsErrOf result BundleError.Missing → observed ≡ true
            → kind_at ((shown self.old).tree path.now) ≢ Some BundleKind.Dir }
        ensures called { BundleCall observed (shown self.old) (request_at BundleAction.List path.now) 0 (shown self.new) };
}
