//! The volumes of a pod.

ghost use Rattle.std.specs.Prelude.{◌≡◌, ◌++◌, ◌∷◌, [], ℕ, List, IfOk, OnOk, map};
ghost use Rattle.ac_types.specs.SeenTexts.{HasSeen};
ghost use Rattle.manifests.specs.PodData.{runtime_app_data};
ghost use Rattle.manifests.specs.declared.mount.Mount.{Mount};
ghost use Rattle.pod_manifest.specs.FirstOfEach.{new_of_each};
ghost use Rattle.pod_manifest.specs.Generation.{empty_volume, volume_names, volumes_of};

use crate::options::Options;
use ac_types::{AcName, NoMemory, SeenTexts, Sequence, Text};
use manifests::{Mount, RuntimeApp, Volume, VolumeKind, Volumes};
use std::alloc::Global;

/// The volumes that were asked for, and then an empty one for each other name of a volume that an
/// app has mounted.
pub(crate) fn volumes_of(
    alloc: Global,
    options: &Options,
    apps: &[RuntimeApp],
) -> Result<Volumes, NoMemory>
    ensures { IfOk result (λ volumes. volumes ≡ volumes_of options.now (map runtime_app_data apps.now)) }
{
    let asked = options.volumes();
    let mut seen = names_of(alloc, asked)?;
    let mut volumes = Sequence::of(alloc, asked)?;
    for app in apps {
        volumes = with_mounted(alloc, app.mounts.as_slice(), &mut seen, volumes)?;
    }
    Ok(volumes)
}

fn names_of(alloc: Global, volumes: &[Volume]) -> Result<SeenTexts, NoMemory>
    ensures { IfOk result (λ seen. HasSeen seen (volume_names volumes.now)) }
{
    let mut seen = SeenTexts::new(alloc);
    for volume in volumes {
        seen.add(alloc, volume.name.as_str())?;
    }
    Ok(seen)
}

/// The volumes with those that some mounts name, each once.
fn with_mounted(
    alloc: Global,
    mounts: &[Mount],
    seen: &mut SeenTexts,
    volumes: Volumes,
) -> Result<Volumes, NoMemory>
    ensures volumes { IfOk result (λ more. (known : List (List ℕ)) → HasSeen seen.old known
        → more ≡ volumes ++ map empty_volume (new_of_each (λ (n : List ℕ). n) known (map (λ (m : Mount). m.volume) mounts.now))) }
    ensures seen { OnOk result ((known : List (List ℕ)) → HasSeen seen.old known
        → HasSeen seen.new (known ++ map (λ (m : Mount). m.volume) mounts.now)) }
{
    let mut volumes = volumes;
    for mount in mounts {
        volumes = with_volume(alloc, &mount.volume, seen, volumes)?;
    }
    Ok(volumes)
}

/// The volumes with an empty one of that name, unless one has it.
fn with_volume(
    alloc: Global,
    name: &AcName,
    seen: &mut SeenTexts,
    volumes: Volumes,
) -> Result<Volumes, NoMemory>
    ensures volumes { IfOk result (λ more. (known : List (List ℕ)) → HasSeen seen.old known
        → more ≡ volumes ++ map empty_volume (new_of_each (λ (n : List ℕ). n) known (name.now ∷ []))) }
    ensures seen { OnOk result ((known : List (List ℕ)) → HasSeen seen.old known → HasSeen seen.new (known ++ name.now ∷ [])) }
{
    if seen.add(alloc, name.as_str())? {
        volumes.push(empty_volume(alloc, name)?)
    } else {
        Ok(volumes)
    }
}

fn empty_volume(alloc: Global, name: &AcName) -> Result<Volume, NoMemory>
    ensures { IfOk result (λ volume. volume ≡ empty_volume name.now) }
{
    Ok(Volume {
        name: name.copy()?,
        kind: VolumeKind::Empty {
            mode: Text::of(alloc, "0755")?,
            uid: 0,
            gid: 0,
        },
    })
}
