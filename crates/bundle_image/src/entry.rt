// The entry of what stands at a path.
ghost use Rattle.std.specs.Prelude.{◌≡◌, ◌≤◌, ◌++◌, ◌⊎◌, true, false, Some, None, IsSome, IfOk, IfErr, IsErrOf};
ghost use Rattle.dir_model.specs.Causes.{Rose};
ghost use Rattle.dir_trait.specs.Bundles.{kind_at};
ghost use Rattle.path_map.specs.Entries.{is_directory};
ghost use Rattle.path_map.specs.Paths.{path_fault};
ghost use Rattle.tree_digest.specs.Listings.{IsListable};
ghost use Rattle.bundle_image.specs.Entries.{IsBadKindAt, IsEntryOf, FailsBy};
ghost use Rattle.bundle_image.specs.Reads.{ReadsWithin};
ghost use Rattle.bundle_image.specs.Tasks.{is_dir_kind};

use crate::file_sum::sum_file;
use crate::link::read_target;
use crate::place::joined;
use crate::refusal::{BundleRefusal, bundle_refusal, out_of_memory};
use crate::task::Task;
use ac_types::Text;
use dir_trait::{Bundle, BundleKind};
use path_map::{AbsPath, Entry, Meta, PathError};
use std::alloc::Global;
use tree_digest::refusals::MAX_LINES;
use tree_digest::{ListingError, ListingLine};

/// The directory of a bundle that is walked.
pub(crate) const ROOTFS: &str = "rootfs";

fn owned_by_root(mode: u16) -> Meta
    ensures { result ≡ record { mode = mode; uid = 0; gid = 0 } }
{
    Meta {
        mode,
        uid: 0,
        gid: 0,
    }
}

/// The refusal of what isn't carried.
pub(crate) fn bad_kind(alloc: Global, path: &str) -> BundleRefusal
    ensures { IsBadKindAt path.now result }
{
    match joined(alloc, ROOTFS, path) {
        Ok(path) => BundleRefusal::BadKind(path),
        Err(_) => BundleRefusal::NoMemory,
    }
}

fn path_of(alloc: Global, path: &str) -> Result<AbsPath, BundleRefusal>
    ensures path { IfOk result (λ read. read ≡ path.now) }
    ensures fault { IfErr result (λ r. (IsBadKindAt path.now r × IsSome (path_fault path.now)) ⊎ (r ≡ BundleRefusal.NoMemory)) }
{
    match AbsPath::parse(alloc, path) {
        Ok(read) => Ok(read),
        Err(PathError::NoMemory) => Err(BundleRefusal::NoMemory),
        Err(_) => Err(bad_kind(alloc, path)),
    }
}

fn place_of(alloc: Global, root: &str, path: &str) -> Result<Text, BundleRefusal>
    ensures place { IfOk result (λ place. place ≡ root.now ++ path.now) }
    ensures fault { IfErr result (λ r. r ≡ BundleRefusal.NoMemory) }
{
    match joined(alloc, root, path) {
        Ok(place) => Ok(place),
        Err(error) => Err(out_of_memory(error)),
    }
}

fn file_entry<B: Bundle>(
    alloc: Global,
    bundle: &mut B,
    root: &str,
    path: &str,
    count: usize,
) -> Result<Entry, BundleRefusal>
    requires { count ≤ MAX_LINES }
    ensures reads { ReadsWithin B.observed root.now (B.shown bundle.old) (B.shown bundle.new) }
    ensures cause { IsErrOf result BundleRefusal.BundleFault → Rose (B.shown bundle.old).faults (B.shown bundle.new).faults }
    ensures listable { IfOk result IsListable }
    ensures plain { IfOk result (λ entry. is_directory entry ≡ false) }
    ensures entry { IfOk result (λ entry. B.observed ≡ true → kind_at ((B.shown bundle.old).tree (root.now ++ path.now)) ≡ Some BundleKind.File
        → IsEntryOf ((B.shown bundle.old).tree (root.now ++ path.now)) entry) }
    ensures fault { IfErr result (λ r. B.observed ≡ true → kind_at ((B.shown bundle.old).tree (root.now ++ path.now)) ≡ Some BundleKind.File
        → path_fault path.now ≡ None → FailsBy ((B.shown bundle.old).tree (root.now ++ path.now)) path.now count r) }
{
    let at = place_of(alloc, root, path)?;
    match sum_file(alloc, bundle, at.as_str()) {
        Ok(Some(sum)) => {
            let sha = sum.sha;
            Ok(Entry::File {
                meta: owned_by_root(0o755),
                size: sum.size,
                sha,
            })
        }
        Ok(None) => Err(BundleRefusal::Listing(ListingError::FileTooLong(count + 1))),
        Err(error) => Err(bundle_refusal(error, bad_kind(alloc, path))),
    }
}

fn link_entry<B: Bundle>(
    alloc: Global,
    bundle: &mut B,
    root: &str,
    path: &str,
    count: usize,
) -> Result<Entry, BundleRefusal>
    ensures reads { ReadsWithin B.observed root.now (B.shown bundle.old) (B.shown bundle.new) }
    ensures cause { IsErrOf result BundleRefusal.BundleFault → Rose (B.shown bundle.old).faults (B.shown bundle.new).faults }
    ensures listable { IfOk result IsListable }
    ensures plain { IfOk result (λ entry. is_directory entry ≡ false) }
    ensures entry { IfOk result (λ entry. B.observed ≡ true → kind_at ((B.shown bundle.old).tree (root.now ++ path.now)) ≡ Some BundleKind.Link
        → IsEntryOf ((B.shown bundle.old).tree (root.now ++ path.now)) entry) }
    ensures fault { IfErr result (λ r. B.observed ≡ true → kind_at ((B.shown bundle.old).tree (root.now ++ path.now)) ≡ Some BundleKind.Link
        → FailsBy ((B.shown bundle.old).tree (root.now ++ path.now)) path.now count r) }
{
    let _count = count;
    let at = place_of(alloc, root, path)?;
    match read_target(alloc, bundle, at.as_str()) {
        Ok(Some(target)) => Ok(Entry::Link {
            meta: owned_by_root(0o777),
            target,
        }),
        Ok(None) => Err(bad_kind(alloc, path)),
        Err(error) => Err(bundle_refusal(error, bad_kind(alloc, path))),
    }
}

fn entry_of<B: Bundle>(
    alloc: Global,
    bundle: &mut B,
    root: &str,
    task: &Task,
    count: usize,
) -> Result<Entry, BundleRefusal>
    requires { count ≤ MAX_LINES }
    ensures reads { ReadsWithin B.observed root.now (B.shown bundle.old) (B.shown bundle.new) }
    ensures cause { IsErrOf result BundleRefusal.BundleFault → Rose (B.shown bundle.old).faults (B.shown bundle.new).faults }
    ensures listable { IfOk result IsListable }
    ensures directory { IfOk result (λ entry. is_directory entry ≡ is_dir_kind task.now.kind) }
    ensures entry { IfOk result (λ entry. B.observed ≡ true → kind_at ((B.shown bundle.old).tree (root.now ++ task.now.path)) ≡ Some task.now.kind
        → IsEntryOf ((B.shown bundle.old).tree (root.now ++ task.now.path)) entry) }
    ensures fault { IfErr result (λ r. B.observed ≡ true → kind_at ((B.shown bundle.old).tree (root.now ++ task.now.path)) ≡ Some task.now.kind
        → path_fault task.now.path ≡ None → FailsBy ((B.shown bundle.old).tree (root.now ++ task.now.path)) task.now.path count r) }
{
    match task.kind {
        BundleKind::Dir => Ok(Entry::Dir(owned_by_root(0o755))),
        BundleKind::File => file_entry(alloc, bundle, root, task.path.as_str(), count),
        BundleKind::Link => link_entry(alloc, bundle, root, task.path.as_str(), count),
        BundleKind::Other => Err(bad_kind(alloc, task.path.as_str())),
    }
}

/// The line of an entry that was listed, after `count` others. `BadKind` where its path has no reading,
/// it is of no kind that is carried, or it is missing; `FileTooLong` for a file of more than 1 GiB.
pub(crate) fn read_line<B: Bundle>(
    alloc: Global,
    bundle: &mut B,
    root: &str,
    task: &Task,
    count: usize,
) -> Result<ListingLine, BundleRefusal>
    requires { count ≤ MAX_LINES }
    ensures reads { ReadsWithin B.observed root.now (B.shown bundle.old) (B.shown bundle.new) }
    ensures cause { IsErrOf result BundleRefusal.BundleFault → Rose (B.shown bundle.old).faults (B.shown bundle.new).faults }
    ensures path { IfOk result (λ line. line.path ≡ task.now.path) }
    ensures listable { IfOk result (λ line. IsListable line.entry) }
    ensures directory { IfOk result (λ line. is_directory line.entry ≡ is_dir_kind task.now.kind) }
    ensures entry { IfOk result (λ line. B.observed ≡ true → kind_at ((B.shown bundle.old).tree (root.now ++ task.now.path)) ≡ Some task.now.kind
        → IsEntryOf ((B.shown bundle.old).tree (root.now ++ task.now.path)) line.entry) }
    ensures fault { IfErr result (λ r. B.observed ≡ true → kind_at ((B.shown bundle.old).tree (root.now ++ task.now.path)) ≡ Some task.now.kind
        → FailsBy ((B.shown bundle.old).tree (root.now ++ task.now.path)) task.now.path count r) }
{
    let path = path_of(alloc, task.path.as_str())?;
    match entry_of(alloc, bundle, root, task, count) {
        Ok(entry) => Ok(ListingLine { path, entry }),
        Err(refusal) => Err(refusal),
    }
}
