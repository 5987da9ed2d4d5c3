// Where the root of an app stands.
ghost use Rattle.std.specs.Prelude.{◌≡◌, ◌++◌, string_bytes, IfOk};
ghost use Rattle.host_files.specs.Places.{folder_path};
ghost use Rattle.host_spawner.specs.Roots.{root_path, below_root};

use dir_trait::Spot;
use host_files::{join, path_of_area};
use spawner::RootPlace;
use std::alloc::{AllocError, Global};

/// The path of a pod's folder.
pub fn path_of_pod(alloc: Global, base: &str, spot: &Spot) -> Result<String, AllocError>
    ensures { IfOk result (λ path. string_bytes path ≡ folder_path base.now spot.now) }
{
    let area = path_of_area(alloc, base, spot.area)?;
    join(alloc, area.as_str(), spot.name.as_str())
}

/// The path of an app's root.
pub fn path_of_root(alloc: Global, base: &str, root: &RootPlace) -> Result<String, AllocError>
    ensures { IfOk result (λ path. string_bytes path ≡ root_path base.now root.now) }
{
    let mut path = path_of_pod(alloc, base, &root.spot)?;
    path.push_str("/stage1/rootfs/opt/stage2/")?;
    path.push_str(root.app.as_str())?;
    path.push_str("/rootfs")?;
    Ok(path)
}

/// The path of what a path of the app names.
pub fn path_below(alloc: Global, root: &str, path: &str) -> Result<String, AllocError>
    ensures { IfOk result (λ below. string_bytes below ≡ below_root root.now path.now) }
{
    let mut below = String::from_str(alloc, root)?;
    below.push_str(path)?;
    Ok(below)
}
