// The plan of a pod that was chosen.
ghost use Rattle.std.specs.Prelude.{◌≡◌, true, length, IfOk};
ghost use Rattle.serde_json.specs.Written.{compact_text};
ghost use Rattle.ac_types.specs.Ids.{id_text};
ghost use Rattle.manifests.specs.PodData.{pod_data};
ghost use Rattle.manifests.specs.ManifestRules.{IsPodManifest};
ghost use Rattle.manifests.specs.PodObject.{pod_object};
ghost use Rattle.folder_building.specs.Plans.{is_plan};
ghost use Rattle.pod_plan.specs.PodPlans.{ComesInTurn, MakesWhole};
ghost use Rattle.pod_plan.specs.Plans.{apps_of, folders, IsChoiceReady, ArePlanParts, IsPlanOf};

use crate::app_root::Root;
use crate::apps::apps_with;
use crate::images::StoreImages;
use crate::plan_error::short_of_memory;
use crate::{Choice, PodApp, pod_plan};
use ac_types::{NoMemory, Sequence, StoreKey};
use dep_match::Stored;
use dir_trait::{Bytes, Name};
use folder_building::PlanEntry;
use image_reading::spot_of;
use manifests::pod_bytes;
use std::alloc::Global;

/// The name of an image's folder.
fn folder_of(alloc: Global, key: StoreKey) -> Result<Name, NoMemory>
    ensures { IfOk result (λ name. name ≡ id_text key.bytes) }
{
    match spot_of(alloc, key) {
        Ok(spot) => Ok(spot.name),
        Err(error) => Err(short_of_memory(error)),
    }
}

/// The names of the images' folders.
fn folders_of(alloc: Global, images: &[Stored]) -> Result<Vec<Name>, NoMemory>
    ensures { IfOk result (λ names. names.items ≡ folders images.now) }
{
    let mut names = Vec::new(alloc);
    'images: for image in images {
        names.push(folder_of(alloc, image.key)?)?;
    }
    Ok(names)
}

/// What a pod is made from beside the images: the text of its manifest, and its apps.
#[derive(Drop)]
struct PodParts {
    text: Vec<u8>,
    apps: Vec<PodApp>,
}

/// What the pod is made from, the images having these manifests and the apps these roots.
fn parts_of(
    alloc: Global,
    manifests: &[Bytes],
    choice: Choice,
    roots: Sequence<Root>,
) -> Result<PodParts, NoMemory>
    requires ready { IsChoiceReady (length manifests.now) choice roots }
    ensures { IfOk result (λ parts. ArePlanParts manifests.now choice roots parts.text.items parts.apps.items) }
{
    let text = pod_bytes(alloc, &choice.manifest)?;
    let Choice {
        picks,
        manifest,
        ..
    } = choice;
    let named = manifest.apps.as_slice();
    match apps_with(alloc, manifests, picks.as_slice(), named, roots.into_vec()) {
        Ok(apps) => Ok(PodParts { text, apps }),
        Err(error) => Err(error),
    }
}

/// The plan of the pod that was chosen of the images, its apps having these roots.
pub(crate) fn plan_of(
    alloc: Global,
    read: &StoreImages,
    choice: Choice,
    roots: Sequence<Root>,
    now: u64,
    token: &[u8; 16],
) -> Result<Vec<PlanEntry>, NoMemory>
    requires ready { IsChoiceReady (length read.now.manifests.items) choice roots }
    ensures made { IfOk result (λ plan. IsPlanOf read.now.images.items read.now.manifests.items choice roots now token.now plan.items) }
    ensures plan { IfOk result (λ plan. is_plan plan.items ≡ true) }
    ensures turn { IfOk result (λ plan. ComesInTurn now plan.items) }
    ensures whole { IfOk result (λ plan. MakesWhole plan.items) }
{
    let folders = folders_of(alloc, read.images.as_slice())?;
    let parts = parts_of(alloc, read.manifests.as_slice(), choice, roots)?;
    let apps = parts.apps.as_slice();
    pod_plan(alloc, now, token, &parts.text, folders.as_slice(), apps)
}
