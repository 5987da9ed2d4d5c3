// What the apps of a pod start with.
ghost use Rattle.std.specs.Prelude.{◌≡◌, true, IfOk, IfErr, IsErrOf};
ghost use Rattle.std.specs.List.{AllByRecursion};
ghost use Rattle.dir_model.specs.Causes.{Rose};
ghost use Rattle.dir_model.specs.Local.{IsActive};
ghost use Rattle.pod_files.specs.Looks.{OnlyReadsPod};
ghost use Rattle.stage1.specs.Starts.{IsPlacedIn, FindsStarts, ReadsStarts};
ghost use Rattle.stage1.specs.LoadRefusals.{LacksStarts, LoadCause};

use crate::load_error::LoadError;
use crate::manifest::read_manifest;
use crate::resolving::app_starts;
use crate::root::read_roots;
use crate::start::AppStart;
use crate::token::read_token;
use dir_trait::{Dir, PodId};
use manifests::RuntimeApp;
use std::alloc::Global;

// What the apps start with, in a pod with this token.
fn starts_with<D: Dir>(
    alloc: Global,
    dir: &mut D,
    pod: PodId,
    apps: &[RuntimeApp],
    address: &str,
    token: &str,
) -> Result<Vec<AppStart>, LoadError>
    requires active { IsActive (D.shown dir.old).local }
    ensures cause { IsErrOf result LoadError.DirFault → Rose (D.shown dir.old).faults (D.shown dir.new).faults }
    ensures only { OnlyReadsPod D.observed pod (D.shown dir.old) (D.shown dir.new) }
    ensures placed { IfOk result (λ starts. AllByRecursion (IsPlacedIn pod) starts.items) }
    ensures found { IfOk result (λ starts. D.observed ≡ true → FindsStarts pod address.now token.now apps.now starts.items (D.shown dir.old) (D.shown dir.new)) }
    ensures lacks { IfErr result (λ e. D.observed ≡ true → LacksStarts pod apps.now e (D.shown dir.old) (D.shown dir.new)) }
{
    match read_roots(alloc, dir, pod, apps) {
        Ok(roots) => app_starts(alloc, pod, apps, roots, address, token),
        Err(error) => Err(error),
    }
}

/// What the apps of the pod in run start with, in the order of its manifest; `address` is that of the
/// metadata service. It only looks, and has found every program when it answers.
///
/// Refused in this order. `NoManifest` where the file `pod` is missing or is no pod manifest. `Damaged`
/// with its path, which begins with the pod's uuid, where the file `token` is missing or isn't 32
/// lower-case hex digits, or else of the first app's root of which the listing is missing or is none.
/// `NoProgram` with the first app whose root has no file and no link for one of its program words, and the
/// first such word. `DirFault` where the directory failed, `NoMemory` where memory ran out.
pub fn pod_launches<D: Dir>(
    alloc: Global,
    dir: &mut D,
    pod: PodId,
    address: &str,
) -> Result<Vec<AppStart>, LoadError>
    requires active { IsActive (D.shown dir.old).local }
    ensures cause { IsErrOf result LoadError.DirFault → Rose (D.shown dir.old).faults (D.shown dir.new).faults }
    ensures only { OnlyReadsPod D.observed pod (D.shown dir.old) (D.shown dir.new) }
    ensures placed { IfOk result (λ starts. AllByRecursion (IsPlacedIn pod) starts.items) }
    ensures read { IfOk result (λ starts. D.observed ≡ true → ReadsStarts pod address.now starts.items (D.shown dir.old) (D.shown dir.new)) }
    ensures lacks { IfErr result (λ e. D.observed ≡ true → LoadCause pod e (D.shown dir.old) (D.shown dir.new)) }
{
    let manifest = read_manifest(alloc, dir, pod)?;
    match read_token(alloc, dir, pod) {
        Ok(token) => starts_with(
            alloc,
            dir,
            pod,
            manifest.apps.as_slice(),
            address,
            token.as_str(),
        ),
        Err(error) => Err(error),
    }
}
