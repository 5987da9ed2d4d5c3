// The paths of a pod's files, and the roots of its apps.
ghost use Rattle.std.specs.Prelude.{◌≡◌, IfOk, string_bytes};
ghost use Rattle.stage1.specs.AppPlaces.{tree_path, told_path, app_root_of};

use ac_types::{AcName, NoMemory, Text};
use dir_trait::{Area, FileName, PodId, Spot};
use spawner::RootPlace;
use std::alloc::Global;

/// The path of the listing of an app's root.
pub(crate) fn tree_path(alloc: Global, app: &str) -> Result<String, NoMemory>
    ensures { IfOk result (λ path. string_bytes path ≡ tree_path app.now) }
{
    let mut path = String::from_str(alloc, "stage1/rootfs/opt/stage2/")?;
    path.push_str(app)?;
    path.push_str("/tree")?;
    Ok(path)
}

/// A path in the pod's folder as it is told: behind the pod's uuid.
pub(crate) fn told_path(alloc: Global, pod: PodId, path: &str) -> Result<Text, NoMemory>
    ensures { IfOk result (λ text. text ≡ told_path pod path.now) }
{
    let mut room = [0; 36];
    let mut text = String::from_str(alloc, pod.text(&mut room))?;
    text.push_str("/")?;
    text.push_str(path)?;
    Text::of(alloc, text.as_str())
}

/// The root of an app. An app's name is a file name.
pub(crate) fn root_of(pod: PodId, app: &AcName) -> RootPlace
    ensures { result ≡ app_root_of pod app.now }
{
    match FileName::of(app.as_str()) {
        Some(name) => RootPlace {
            spot: Spot::of_pod(pod, Area::Run),
            app: name,
        },
        None => unreachable!(),
    }
}
