//! The pod manifest of some images.

ghost use Rattle.std.specs.Prelude.{◌≡◌, ◌<◌, None, IfOk, IfErr, length, map};
ghost use Rattle.std.specs.List.{All};
ghost use Rattle.manifests.specs.ManifestRules.{IsPodManifest};
ghost use Rattle.manifests.specs.PodData.{pod_data, runtime_app_data};
ghost use Rattle.pod_manifest.specs.Generation.{first_refusal, picked, pod_of, pod_with, IsRefusal};
ghost use Rattle.pod_manifest.specs.Inputs.{IsImage};
ghost use Rattle.pod_manifest.specs.Mounted.{HasItsMounts, HasItsVolumes};

use crate::checks::{check_images, check_mounts};
use crate::gen_error::GenError;
use crate::options::Options;
use crate::refusals::MAX_APPS;
use crate::runtime_apps::apps_of;
use crate::volumes::volumes_of;
use ac_types::{NoMemory, Sequence, Text};
use dep_match::Stored;
use manifests::{PodManifest, RuntimeApps};
use std::alloc::Global;

/// The pod manifest of the images at some places of a list. Each is an app of the pod, in their
/// order, with the mounts that were asked for and one for each of its mount points whose path no
/// mount before has. The volumes are those that were asked for, and an empty one for each mount
/// that needs another. Where the images' manifests are manifests, so is what is answered.
///
/// The first refusal otherwise: `TooManyApps` for more than 64 places; at each image in turn
/// `NoApp` where it has no app, `NoExec` where its app runs no program, `AppTwice` where an earlier
/// app has its name; `NoVolume` for the first mount that was asked for of a volume that was not.
/// `NoMemory` at any time.
pub fn generate(
    alloc: Global,
    list: &[Stored],
    picks: &[usize],
    options: &Options,
) -> Result<PodManifest, GenError>
    requires { All (λ i. i < length list.now) picks.now }
    ensures ok { IfOk result (λ pod. pod_data pod ≡ pod_of list.now picks.now options.now) }
    ensures accepted { IfOk result (λ _. first_refusal list.now picks.now options.now ≡ None) }
    ensures volumes { IfOk result (λ pod. HasItsVolumes (pod_data pod)) }
    ensures mounts { IfOk result (λ pod. HasItsMounts (picked list.now picks.now) (pod_data pod)) }
    ensures manifest { IfOk result (λ pod. All IsImage (picked list.now picks.now) → IsPodManifest (pod_data pod)) }
    ensures err { IfErr result (IsRefusal (first_refusal list.now picks.now options.now)) }
{
    if picks.len() > MAX_APPS {
        return Err(GenError::TooManyApps);
    }
    check_images(alloc, list, picks)?;
    check_mounts(options)?;
    let apps = apps_of(alloc, list, picks, options)?;
    Ok(pod_with(alloc, apps, options)?)
}

fn pod_with(alloc: Global, apps: RuntimeApps, options: &Options) -> Result<PodManifest, NoMemory>
    ensures { IfOk result (λ pod. pod_data pod ≡ pod_with options.now (map runtime_app_data apps)) }
{
    Ok(PodManifest {
        volumes: volumes_of(alloc, options, apps.as_slice())?,
        ac_version: Text::of(alloc, "0.8.0")?,
        isolators: Sequence::new(alloc),
        annotations: Sequence::new(alloc),
        ports: Sequence::new(alloc),
        apps,
    })
}
