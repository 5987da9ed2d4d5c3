//! The apps of a pod, each made from an image.

ghost use Rattle.std.specs.Prelude.{◌≡◌, ◌<◌, ℕ, IfOk, length, map, slice_index};
ghost use Rattle.std.specs.List.{All};
ghost use Rattle.manifest_parts.specs.PartRules.{IsImageId};
ghost use Rattle.manifest_parts.specs.declared.runtime_image.RuntimeImage.{RuntimeImage};
ghost use Rattle.manifests.specs.PodData.{RuntimeAppData, runtime_app_data};
ghost use Rattle.pod_manifest.specs.Generation.{app_of, picked, points_of, runtime_image};

use crate::app_names::app_name;
use crate::mounts::mounts_of;
use crate::options::Options;
use ac_types::{ImageId, NoMemory, Sequence, ShownCopy};
use app_section::{App, MountPoint};
use dep_match::Stored;
use manifests::{RuntimeApp, RuntimeApps, RuntimeImage};
use std::alloc::Global;

/// The apps of the images at some places of a list.
pub(crate) fn apps_of(
    alloc: Global,
    list: &[Stored],
    picks: &[usize],
    options: &Options,
) -> Result<RuntimeApps, NoMemory>
    requires { All (λ i. i < length list.now) picks.now }
    ensures apps { IfOk result (λ apps. map runtime_app_data apps ≡ map (app_of options.now) (picked list.now picks.now)) }
    ensures ids { IfOk result (λ apps. All (λ (a : RuntimeAppData). IsImageId a.image.id) (map runtime_app_data apps)) }
{
    let mut apps = Sequence::new(alloc);
    for pick in picks {
        apps = apps.push(app_of(alloc, &list[*pick], options)?)?;
    }
    Ok(apps)
}

fn app_of(alloc: Global, image: &Stored, options: &Options) -> Result<RuntimeApp, NoMemory>
    ensures app { IfOk result (λ app. runtime_app_data app ≡ app_of options.now image.now) }
    ensures id { IfOk result (λ app. IsImageId app.image.id) }
{
    let name = app_name(alloc, &image.manifest.name)?;
    let mounts = mounts_of(alloc, options, &name, points_of(&image.manifest.app))?;
    // The section is copied last, so that no failure has to drop its copy.
    Ok(RuntimeApp {
        name,
        mounts,
        read_only_root_fs: false,
        annotations: Sequence::new(alloc),
        image: runtime_image(image)?,
        app: image.manifest.app.copy()?,
    })
}

fn runtime_image(image: &Stored) -> Result<RuntimeImage, NoMemory>
    ensures image { IfOk result (λ i. i ≡ runtime_image image.now) }
    ensures id { IfOk result (λ i. IsImageId i.id) }
{
    Ok(RuntimeImage {
        id: known_id(image.id),
        name: Some(image.manifest.name.copy()?),
        labels: image.manifest.labels.copy()?,
    })
}

/// The same ID, of which its type says that it has 64 bytes.
fn known_id(id: ImageId) -> ImageId
    ensures same { result ≡ id }
    ensures kind { IsImageId id }
{
    are_bytes(&id.bytes);
    id
}

/// What the type of bytes says of them.
fn are_bytes(bytes: &[u8])
    ensures { (i : ℕ) → slice_index bytes.now i < 256 }
{
    let _length = bytes.len();
}

fn points_of(app: &Option<App>) -> &[MountPoint]
    ensures { result.now ≡ points_of app.now }
{
    match app {
        Some(app) => app.mount_points.as_slice(),
        None => &[],
    }
}
