// The roots of the apps of a pod in run, by their listings.
ghost use Rattle.std.specs.Prelude.{◌≡◌, ◌+◌, length, true, map, IfOk, IfErr, IsErrOf};
ghost use Rattle.dir_model.specs.Causes.{Rose};
ghost use Rattle.dir_model.specs.Local.{IsActive};
ghost use Rattle.stage1.specs.AppPlaces.{tree_path, told_path};
ghost use Rattle.pod_files.specs.Looks.{OnlyReadsPod};
ghost use Rattle.stage1.specs.AppFiles.{IsAppRootOf, IsNoListing, ReadsRoot, LacksRootListing, AddsRoot, AreAppRoots};
ghost use Rattle.stage1.specs.LoadRefusals.{IsDamageFor, IsRootsLack};

use crate::load_error::{LoadError, damaged, no_memory, short_of_memory};
use crate::part::read_part;
use crate::run_place::tree_path;
use ac_types::AcName;
use dir_trait::{Dir, PodId};
use manifests::RuntimeApp;
use path_map::PathMap;
use std::alloc::Global;
use tree_digest::refusals::MOST_OF_LISTING;
use tree_digest::{Listing, ListingError};

/// The root of an app: its listing as it stands there, and the map of it.
#[derive(Drop)]
pub(crate) struct Root {
    pub listing: Vec<u8>,
    pub tree: PathMap,
}

// The root of which the bytes are the listing.
fn root_with(alloc: Global, pod: PodId, path: &str, bytes: Vec<u8>) -> Result<Root, LoadError>
    ensures ok { IfOk result (IsAppRootOf bytes.items) }
    ensures fault { IfErr result (IsDamageFor (told_path pod path.now) (IsNoListing bytes.items)) }
    ensures never_fails { IsErrOf result LoadError.DirFault → ⊥ }
{
    match Listing::read(alloc, &bytes) {
        Ok(listing) => {
            let tree = listing.to_map(alloc).map_err(no_memory)?;
            Ok(Root {
                listing: bytes,
                tree,
            })
        }
        Err(ListingError::NoMemory) => Err(LoadError::NoMemory),
        Err(_) => Err(damaged(alloc, pod, path)),
    }
}

// The root of the app whose listing has this path.
fn root_at<D: Dir>(
    alloc: Global,
    dir: &mut D,
    pod: PodId,
    app: &AcName,
    path: &str,
) -> Result<Root, LoadError>
    requires active { IsActive (D.shown dir.old).local }
    requires path { path.now ≡ tree_path app.now }
    ensures cause { IsErrOf result LoadError.DirFault → Rose (D.shown dir.old).faults (D.shown dir.new).faults }
    ensures only { OnlyReadsPod D.observed pod (D.shown dir.old) (D.shown dir.new) }
    ensures read { IfOk result (λ root. D.observed ≡ true → ReadsRoot pod app.now root (D.shown dir.old) (D.shown dir.new)) }
    ensures lacks { IfErr result (IsDamageFor (told_path pod path.now) (D.observed ≡ true → LacksRootListing pod app.now (D.shown dir.old) (D.shown dir.new))) }
{
    let _name = app.as_str();
    match read_part(alloc, dir, pod, path, MOST_OF_LISTING) {
        Ok(Some(bytes)) => root_with(alloc, pod, path, bytes),
        Ok(None) => Err(damaged(alloc, pod, path)),
        Err(error) => Err(error),
    }
}

// The root of an app.
fn read_root<D: Dir>(
    alloc: Global,
    dir: &mut D,
    pod: PodId,
    app: &AcName,
) -> Result<Root, LoadError>
    requires active { IsActive (D.shown dir.old).local }
    ensures cause { IsErrOf result LoadError.DirFault → Rose (D.shown dir.old).faults (D.shown dir.new).faults }
    ensures only { OnlyReadsPod D.observed pod (D.shown dir.old) (D.shown dir.new) }
    ensures read { IfOk result (λ root. D.observed ≡ true → ReadsRoot pod app.now root (D.shown dir.old) (D.shown dir.new)) }
    ensures lacks { IfErr result (IsDamageFor (told_path pod (tree_path app.now)) (D.observed ≡ true → LacksRootListing pod app.now (D.shown dir.old) (D.shown dir.new))) }
{
    match tree_path(alloc, app.as_str()) {
        Ok(path) => root_at(alloc, dir, pod, app, path.as_str()),
        Err(error) => Err(no_memory(error)),
    }
}

// Adds the root of an app.
fn add_root<D: Dir>(
    alloc: Global,
    dir: &mut D,
    pod: PodId,
    app: &AcName,
    roots: &mut Vec<Root>,
) -> Result<(), LoadError>
    requires active { IsActive (D.shown dir.old).local }
    ensures cause { IsErrOf result LoadError.DirFault → Rose (D.shown dir.old).faults (D.shown dir.new).faults }
    ensures only { OnlyReadsPod D.observed pod (D.shown dir.old) (D.shown dir.new) }
    ensures one { IfOk result (λ done. length roots.new.items ≡ length roots.old.items + 1) }
    ensures added { IfOk result (λ done. D.observed ≡ true → AddsRoot pod app.now roots.old.items roots.new.items (D.shown dir.old) (D.shown dir.new)) }
    ensures lacks { IfErr result (IsDamageFor (told_path pod (tree_path app.now)) (D.observed ≡ true → LacksRootListing pod app.now (D.shown dir.old) (D.shown dir.new))) }
{
    let root = read_root(alloc, dir, pod, app)?;
    match roots.push(root) {
        Ok(()) => Ok(()),
        Err(refused) => Err(short_of_memory(refused)),
    }
}

/// The roots of the apps, in their order. `Damaged` with the path of the first listing that is missing or
/// is none; `DirFault` and `NoMemory` as for the manifest.
pub(crate) fn read_roots<D: Dir>(
    alloc: Global,
    dir: &mut D,
    pod: PodId,
    apps: &[RuntimeApp],
) -> Result<Vec<Root>, LoadError>
    requires active { IsActive (D.shown dir.old).local }
    ensures cause { IsErrOf result LoadError.DirFault → Rose (D.shown dir.old).faults (D.shown dir.new).faults }
    ensures only { OnlyReadsPod D.observed pod (D.shown dir.old) (D.shown dir.new) }
    ensures each { IfOk result (λ roots. length roots.items ≡ length apps.now) }
    ensures read { IfOk result (λ roots. D.observed ≡ true → AreAppRoots pod (map (λ a. a.name) apps.now) roots.items (D.shown dir.old) (D.shown dir.new)) }
    ensures lacks { IfErr result (λ e. D.observed ≡ true → IsRootsLack pod (map (λ a. a.name) apps.now) e (D.shown dir.old) (D.shown dir.new)) }
{
    let mut roots = Vec::new(alloc);
    'apps: for app in apps {
        add_root(alloc, dir, pod, &app.name, &mut roots)?;
    }
    Ok(roots)
}
