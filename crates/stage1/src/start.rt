// What the start of an app needs.
use ac_types::AcName;
use launch::AppLaunch;
use spawner::RootPlace;

/// An app of a pod in run, and what its start needs.
#[derive(Drop)]
pub struct AppStart {
    pub name: AcName,
    /// Where its programs run.
    pub root: RootPlace,
    /// The listing of its root, as it stands in the pod.
    pub listing: Vec<u8>,
    /// Its programs' words, environment and directory.
    pub launch: AppLaunch,
}
