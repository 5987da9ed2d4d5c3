// What an app that was started leaves in its root. It writes there itself: names that can't be told, paths
// that the system doesn't take, trees of any depth. The rule on replies lets a call at or below the root of a
// started app answer anything, and lets an Ok removal take all along that stands below: here that is used, to
// delete such roots, and nowhere else.
//
// A deletion takes the mark of an app before its root, so the mark doesn't tell which apps were started where
// a deletion was cut short. The area does: each pod in exited-garbage has been in run, where apps are started,
// and no pod in garbage has. Where an app of such a pod wasn't started, nobody but the pod's maker has written
// in its root: a listing shows all of that, and whoever keeps the rules removes what a listing showed before
// it removes the directory, so nothing is left that a removal could take along.
ghost use Rattle.std.specs.Prelude.{◌≡◌, true, string_bytes, IfOk, IfErr};
ghost use Rattle.dir_model.specs.Trees.{app_root, is_within};
ghost use Rattle.host_files.specs.Apps.{LiesInApp};

use crate::refusals::short;
use dir_model::lies_below;
use dir_trait::{Area, DirError, Item, ItemKind, Items, Spot};
use std::alloc::{AllocError, Global};

/// The path of an app's root in the folder of its pod.
fn app_root(alloc: Global, app: &str) -> Result<String, AllocError>
    ensures { IfOk result (λ root. string_bytes root ≡ app_root app.now) }
{
    let mut root = String::from_str(alloc, "stage1/rootfs/opt/stage2/")?;
    root.push_str(app)?;
    root.push_str("/rootfs")?;
    Ok(root)
}

/// Whether a path is at a root or below it.
fn is_within(root: &str, inner: &str) -> bool
    ensures { result ≡ is_within root.now inner.now }
{
    inner == root || lies_below(inner.as_bytes(), root.as_bytes())
}

/// Whether a path in a pod's folder is at or below an app's root.
fn lies_in_app(alloc: Global, inner: &str) -> Result<bool, AllocError>
    ensures { IfOk result (λ lies. lies ≡ true → LiesInApp inner.now) }
{
    match inner.split('/').nth(4) {
        Some(app) => Ok(is_within(app_root(alloc, app)?.as_str(), inner)),
        None => Ok(false),
    }
}

/// The apps that were started of one pod in exited-garbage: as the last listing of its folder showed their
/// marks, the roots of these apps.
#[derive(Drop)]
pub struct Started {
    spot: Spot,
    roots: Vec<String>,
}

/// The app whose mark an item is.
fn marked_app(item: &Item) -> Option<&str> {
    match item.kind {
        ItemKind::File => item.name.as_str().strip_prefix("started-"),
        ItemKind::Dir | ItemKind::Other => None,
    }
}

fn started_roots(alloc: Global, items: &[Item]) -> Result<Vec<String>, AllocError> {
    let mut roots = Vec::new(alloc);
    for item in items {
        if let Some(app) = marked_app(item) {
            roots.push(app_root(alloc, app)?)?;
        }
    }
    Ok(roots)
}

/// Notes the marks that the listing of a pod's folder shows, where it stands in exited-garbage.
pub fn note_started(
    alloc: Global,
    started: &mut Option<Started>,
    spot: &Spot,
    inner: &str,
    items: &Items,
) -> Result<(), DirError>
    ensures { IfErr result (λ e. e ≡ DirError.NoMemory) }
{
    if spot.area == Area::ExitedGarbage && inner.is_empty() {
        let roots = started_roots(alloc, items.as_slice()).map_err(short)?;
        *started = Some(Started { spot: *spot, roots });
    }
    Ok(())
}

/// Whether an app was started at or below whose root the path lies, as the marks tell that were listed last.
pub fn was_started(started: &Option<Started>, spot: &Spot, inner: &str) -> bool {
    match started {
        Some(started) => {
            started.spot == *spot
                && started
                    .roots
                    .iter()
                    .any(|root| is_within(root.as_str(), inner))
        }
        None => false,
    }
}

/// Whether an app that was started may have made what stands at a path in a folder.
pub fn may_be_apps(alloc: Global, spot: &Spot, inner: &str) -> Result<bool, DirError>
    ensures area { IfOk result (λ may. may ≡ true → spot.now.area ≡ Area.ExitedGarbage) }
    ensures app { IfOk result (λ may. may ≡ true → LiesInApp inner.now) }
    ensures refusals { IfErr result (λ e. e ≡ DirError.NoMemory) }
{
    if spot.area == Area::ExitedGarbage {
        lies_in_app(alloc, inner).map_err(short)
    } else {
        Ok(false)
    }
}
