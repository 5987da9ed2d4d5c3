// The walk of a bundle's root: depth first, in byte order of names, each entry before what it holds.
ghost use Rattle.std.specs.Prelude.{◌≡◌, ◌≢◌, ◌<◌, ◌++◌, true, Some, length, IfOk, IfErr, OnOk, IsErrOf};
ghost use Rattle.dir_model.specs.Causes.{Rose};
ghost use Rattle.dir_trait.specs.Bundles.{kind_at};
ghost use Rattle.bundle_image.specs.Walks.{subtree_below, IsWalked};
ghost use Rattle.bundle_image.specs.Reads.{ReadsWithin};
ghost use Rattle.bundle_image.specs.Refusals.{IsBundleFailure};
ghost use Rattle.bundle_image.specs.Work.{AddsChildren, Descends, AddsEntryLine, Turns, WalkBegins, WalkFailsAt, EndsWalk, AreLaid};

use crate::entry::{bad_kind, read_line};
use crate::lines::Lines;
use crate::place::joined;
use crate::refusal::{BundleRefusal, bundle_refusal, listing_refusal, short_of_memory};
use crate::task::{Task, add_children};
use ac_types::Text;
use dir_trait::{Bundle, BundleError, BundleKind};
use std::alloc::Global;

fn directory_of(alloc: Global, root: &str, path: &str) -> Result<Text, BundleError>
    ensures place { IfOk result (λ place. place ≡ root.now ++ path.now) }
    ensures fault { IfErr result (λ e. e ≡ BundleError.NoMemory) }
{
    match joined(alloc, root, path) {
        Ok(place) => Ok(place),
        Err(error) => Err(short_of_memory(error)),
    }
}

/// Puts the entries of a directory at the end, the first of them last.
fn list<B: Bundle>(
    alloc: Global,
    bundle: &mut B,
    root: &str,
    path: &str,
    pending: &mut Vec<Task>,
) -> Result<(), BundleError>
    requires { 0 < length root.now }
    ensures reads { ReadsWithin B.observed root.now (B.shown bundle.old) (B.shown bundle.new) }
    ensures cause { IsErrOf result BundleError.Failed → Rose (B.shown bundle.old).faults (B.shown bundle.new).faults }
    ensures missing { IsErrOf result BundleError.Missing → B.observed ≡ true
        → kind_at (subtree_below (B.shown bundle.old).tree root.now path.now) ≢ Some BundleKind.Dir }
    ensures children { OnOk result (AddsChildren B.observed (subtree_below (B.shown bundle.old).tree root.now) path.now pending.old.items pending.new.items) }
{
    let directory = directory_of(alloc, root, path)?;
    let items = bundle.list(alloc, directory.as_str())?;
    match add_children(alloc, path, items.as_slice(), pending) {
        Ok(()) => Ok(()),
        Err(error) => Err(short_of_memory(error)),
    }
}

/// The entries of an entry that was read, where it is a directory.
fn descend<B: Bundle>(
    alloc: Global,
    bundle: &mut B,
    root: &str,
    task: &Task,
    pending: &mut Vec<Task>,
) -> Result<(), BundleRefusal>
    requires { 0 < length root.now }
    ensures reads { ReadsWithin B.observed root.now (B.shown bundle.old) (B.shown bundle.new) }
    ensures cause { IsErrOf result BundleRefusal.BundleFault → Rose (B.shown bundle.old).faults (B.shown bundle.new).faults }
    ensures fault { IfErr result (λ r. B.observed ≡ true → kind_at (subtree_below (B.shown bundle.old).tree root.now task.now.path) ≡ Some task.now.kind → IsBundleFailure r) }
    ensures children { OnOk result (Descends B.observed (subtree_below (B.shown bundle.old).tree root.now) task.now pending.old.items pending.new.items) }
{
    match task.kind {
        BundleKind::Dir => match list(alloc, bundle, root, task.path.as_str(), pending) {
            Ok(()) => Ok(()),
            Err(error) => Err(bundle_refusal(error, bad_kind(alloc, task.path.as_str()))),
        },
        BundleKind::File | BundleKind::Link | BundleKind::Other => Ok(()),
    }
}

/// Adds the line of an entry.
fn add_line<B: Bundle>(
    alloc: Global,
    bundle: &mut B,
    root: &str,
    task: &Task,
    lines: &mut Lines,
) -> Result<(), BundleRefusal>
    ensures reads { ReadsWithin B.observed root.now (B.shown bundle.old) (B.shown bundle.new) }
    ensures cause { IsErrOf result BundleRefusal.BundleFault → Rose (B.shown bundle.old).faults (B.shown bundle.new).faults }
    ensures line { OnOk result (AddsEntryLine B.observed (subtree_below (B.shown bundle.old).tree root.now) task.now lines.old lines.new) }
    ensures fault { IfErr result (λ r. B.observed ≡ true → kind_at (subtree_below (B.shown bundle.old).tree root.now task.now.path) ≡ Some task.now.kind
        → WalkFailsAt (subtree_below (B.shown bundle.old).tree root.now) lines.old task.now.path r) }
{
    let line = match read_line(alloc, bundle, root, task, lines.len()) {
        Ok(line) => line,
        Err(refusal) => return Err(refusal),
    };
    match lines.push(alloc, line) {
        Ok(()) => Ok(()),
        Err(error) => Err(listing_refusal(error)),
    }
}

/// Comes to one entry: adds its line, and what it holds to what is still to come.
fn turn<B: Bundle>(
    alloc: Global,
    bundle: &mut B,
    root: &str,
    task: &Task,
    lines: &mut Lines,
    pending: &mut Vec<Task>,
) -> Result<(), BundleRefusal>
    requires { 0 < length root.now }
    ensures reads { ReadsWithin B.observed root.now (B.shown bundle.old) (B.shown bundle.new) }
    ensures cause { IsErrOf result BundleRefusal.BundleFault → Rose (B.shown bundle.old).faults (B.shown bundle.new).faults }
    ensures turned { OnOk result (Turns B.observed (subtree_below (B.shown bundle.old).tree root.now) task.now lines.old pending.old.items lines.new pending.new.items) }
    ensures fault { IfErr result (λ r. B.observed ≡ true → kind_at (subtree_below (B.shown bundle.old).tree root.now task.now.path) ≡ Some task.now.kind
        → WalkFailsAt (subtree_below (B.shown bundle.old).tree root.now) lines.old task.now.path r) }
{
    match add_line(alloc, bundle, root, task, lines) {
        Ok(()) => descend(alloc, bundle, root, task, pending),
        Err(refusal) => Err(refusal),
    }
}

/// What is listed first; nothing where the root is missing.
fn begin<B: Bundle>(alloc: Global, bundle: &mut B, root: &str) -> Result<Vec<Task>, BundleRefusal>
    requires { 0 < length root.now }
    ensures reads { ReadsWithin B.observed root.now (B.shown bundle.old) (B.shown bundle.new) }
    ensures cause { IsErrOf result BundleRefusal.BundleFault → Rose (B.shown bundle.old).faults (B.shown bundle.new).faults }
    ensures fault { IfErr result IsBundleFailure }
    ensures begun { IfOk result (λ pending. WalkBegins B.observed (subtree_below (B.shown bundle.old).tree root.now) pending.items) }
{
    let mut pending = Vec::new(alloc);
    match list(alloc, bundle, root, "", &mut pending) {
        Ok(()) => Ok(pending),
        Err(BundleError::Missing) => Ok(Vec::new(alloc)),
        Err(BundleError::Failed) => Err(BundleRefusal::BundleFault),
        Err(BundleError::NoMemory) => Err(BundleRefusal::NoMemory),
    }
}

/// The lines of all that stands below a directory of the bundle, in the order of the walk; none where the
/// directory is missing. Directories and files get the mode 0755, links 0777, and the owners are 0:0. Else
/// the first fault on the way is answered: at an entry `BadKind`, then `FileTooLong` with the number of
/// entries so far, then `TooMany`.
pub(crate) fn walk<B: Bundle>(
    alloc: Global,
    bundle: &mut B,
    root: &str,
) -> Result<Lines, BundleRefusal>
    requires { 0 < length root.now }
    ensures reads { ReadsWithin B.observed root.now (B.shown bundle.old) (B.shown bundle.new) }
    ensures cause { IsErrOf result BundleRefusal.BundleFault → Rose (B.shown bundle.old).faults (B.shown bundle.new).faults }
    ensures laid { IfOk result AreLaid }
    ensures walked { IfOk result (λ lines. B.observed ≡ true → IsWalked (subtree_below (B.shown bundle.old).tree root.now) lines) }
    ensures fault { IfErr result (λ r. B.observed ≡ true → EndsWalk (subtree_below (B.shown bundle.old).tree root.now) r) }
{
    let mut pending = begin(alloc, bundle, root)?;
    let mut lines = Lines::new(alloc);
    'entries: while let Some(task) = pending.pop() {
        match turn(alloc, bundle, root, &task, &mut lines, &mut pending) {
            Ok(()) => {}
            Err(refusal) => return Err(refusal),
        }
    }
    Ok(lines)
}
