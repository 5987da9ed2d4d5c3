// The law of what pods hold in prepared and in run, as the contract of a function.
ghost use Rattle.lifecycle.specs.Executions.{IsConforming};
ghost use Rattle.folder_contents.specs.Filled.{KeepsItsContents, PodsAreFilled};

use dir_model::History;

/// While a pod stands in prepared or in run, and when it goes from the one to the other, its folder
/// keeps what it holds, but for the marks of started apps and of removers and the files of the apps'
/// statuses: nothing else is made, changed or removed there by any process. So the pod's manifest,
/// its token, the manifests of its images and the folder of each app are at each of these moments
/// what the pod's maker left by its own move out of prepare, when it knew all of it whole and synced.
/// What a started app itself writes is no call on the directory, and nothing is said of it.
pub fn filled(history: &History)
    ensures stays { IsConforming history.now.items → KeepsItsContents history.now.items }
    ensures left { IsConforming history.now.items → PodsAreFilled history.now.items }
{
    let _events = history.as_slice();
}
