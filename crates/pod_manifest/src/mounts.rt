//! The mounts of an app.

ghost use Rattle.std.specs.Prelude.{◌≡◌, ◌++◌, ◌∷◌, [], ℕ, List, IfOk, OnOk, map};
ghost use Rattle.ac_types.specs.SeenTexts.{HasSeen};
ghost use Rattle.app_section.specs.declared.mount_point.MountPoint.{MountPoint};
ghost use Rattle.pod_manifest.specs.FirstOfEach.{new_of_each};
ghost use Rattle.pod_manifest.specs.Generation.{has_volume, mount_at, mount_paths, mounts_of};

use crate::app_names::own_volume;
use crate::options::Options;
use ac_types::{AcName, NoMemory, SeenTexts, Sequence};
use app_section::MountPoint;
use manifests::{Mount, Mounts, Volume};
use std::alloc::Global;

/// The mounts that were asked for, and then one for each mount point of an app whose path no mount
/// before has.
pub(crate) fn mounts_of(
    alloc: Global,
    options: &Options,
    app: &AcName,
    points: &[MountPoint],
) -> Result<Mounts, NoMemory>
    ensures { IfOk result (λ mounts. mounts ≡ mounts_of options.now app.now points.now) }
{
    let asked = options.mounts();
    let mut seen = paths_of(alloc, asked)?;
    let mut mounts = Sequence::of(alloc, asked)?;
    for point in points {
        mounts = with_point(alloc, options, app, point, &mut seen, mounts)?;
    }
    Ok(mounts)
}

fn paths_of(alloc: Global, mounts: &[Mount]) -> Result<SeenTexts, NoMemory>
    ensures { IfOk result (λ seen. HasSeen seen (mount_paths mounts.now)) }
{
    let mut seen = SeenTexts::new(alloc);
    for mount in mounts {
        seen.add(alloc, mount.path.as_str())?;
    }
    Ok(seen)
}

/// The mounts with that of one point more, unless a mount with its path is among them.
fn with_point(
    alloc: Global,
    options: &Options,
    app: &AcName,
    point: &MountPoint,
    seen: &mut SeenTexts,
    mounts: Mounts,
) -> Result<Mounts, NoMemory>
    ensures mounts { IfOk result (λ more. (known : List (List ℕ)) → HasSeen seen.old known
        → more ≡ mounts ++ map (mount_at options.now app.now) (new_of_each (λ (p : MountPoint). p.path) known (point.now ∷ []))) }
    ensures seen { OnOk result ((known : List (List ℕ)) → HasSeen seen.old known → HasSeen seen.new (known ++ point.now.path ∷ [])) }
{
    if seen.add(alloc, point.path.as_str())? {
        mounts.push(mount_at(alloc, options, app, point)?)
    } else {
        Ok(mounts)
    }
}

fn mount_at(
    alloc: Global,
    options: &Options,
    app: &AcName,
    point: &MountPoint,
) -> Result<Mount, NoMemory>
    ensures { IfOk result (λ mount. mount ≡ mount_at options.now app.now point.now) }
{
    let path = point.path.copy()?;
    let volume = if has_volume(options.volumes(), point.name.as_str()) {
        point.name.copy()?
    } else {
        own_volume(alloc, app, &point.name)?
    };
    Ok(Mount { volume, path })
}

/// Whether a volume has that name.
pub(crate) fn has_volume(volumes: &[Volume], name: &str) -> bool
    ensures { result ≡ has_volume volumes.now name.now }
{
    volumes.iter().any(|volume| volume.name.as_str() == name)
}
