// What the folder of a pod holds.
ghost use Rattle.std.specs.Prelude.{◌≡◌, ◌++◌, ◌∷◌, [], true, IfOk, codes, map, bytes_eq};
ghost use Rattle.std.specs.List.{flat_map, AllByRecursion, IsDistinct};
ghost use Rattle.folder_building.specs.declared.plan.Content.TheVariants.{Directory};
ghost use Rattle.folder_building.specs.Plans.{is_plan};
ghost use Rattle.folder_building.specs.TreePlans.{plan_entry_at};
ghost use Rattle.folder_building.specs.ImagePlans.{given_file};
ghost use Rattle.pod_plan.specs.AppParts.{IsPlanned};
ghost use Rattle.pod_plan.specs.PodFiles.{shared_directories};
ghost use Rattle.pod_plan.specs.PodPlans.{app_entries, pod_head_entries, pod_entries, ComesInTurn, MakesWhole};
ghost use Rattle.pod_plan.specs.Pods.{files_of, MakesPod};

use crate::app_folder::app_plan;
use crate::entries::{directory, given_file};
use crate::pod_app::PodApp;
use crate::token::token_text;
use ac_types::{NoMemory, Text};
use dir_trait::Name;
use folder_building::PlanEntry;
use marks::mark_text;
use std::alloc::Global;

// The directories that a pod has whatever its apps are.
fn shared_directories() -> [&'static str; 7]
    ensures { map (λ path. path.now) result ≡ shared_directories }
{
    [
        "appsinfo",
        "stage1",
        "stage1/rootfs",
        "stage1/rootfs/opt",
        "stage1/rootfs/opt/stage2",
        "stage1/rootfs/rkt",
        "stage1/rootfs/rkt/status",
    ]
}

// The plan, and after it those directories.
fn add_directories(alloc: Global, plan: Vec<PlanEntry>) -> Result<Vec<PlanEntry>, NoMemory>
    ensures { IfOk result (λ new. new.items ≡ plan.items ++ map (λ path. plan_entry_at path Directory) shared_directories) }
{
    let mut plan = plan;
    for path in shared_directories() {
        plan.push(directory(Text::of(alloc, path)?))?;
    }
    Ok(plan)
}

// The mark of the pod's creation, its token, and those directories.
fn head_plan(alloc: Global, now: u64, token: &[u8; 16]) -> Result<Vec<PlanEntry>, NoMemory>
    ensures { IfOk result (λ plan. plan.items ≡ pod_head_entries now token.now) }
{
    let mut plan = Vec::new(alloc);
    let created = mark_text(alloc, "created-", now)?;
    let text = token_text(alloc, token)?;
    plan.push(given_file(alloc, created, &[])?)?;
    plan.push(given_file(alloc, Text::of(alloc, "token")?, text.as_str().as_bytes())?)?;
    add_directories(alloc, plan)
}

// The plan, and after it the files of each app.
fn apps_plan(
    alloc: Global,
    apps: &[PodApp],
    images: &[Name],
    plan: Vec<PlanEntry>,
) -> Result<Vec<PlanEntry>, NoMemory>
    ensures entries { IfOk result (λ new. new.items ≡ plan.items ++ flat_map (app_entries images.now) apps.now) }
    ensures kind { IfOk result (λ new. AllByRecursion (IsPlanned images.now) apps.now) }
{
    let mut plan = plan;
    for app in apps {
        plan = app_plan(alloc, app, images, plan)?;
    }
    Ok(plan)
}

// The plan, and after it the pod manifest.
fn add_manifest(
    alloc: Global,
    manifest: &[u8],
    plan: Vec<PlanEntry>,
) -> Result<Vec<PlanEntry>, NoMemory>
    ensures { IfOk result (λ new. new.items ≡ plan.items ++ given_file (codes "pod") manifest.now ∷ []) }
{
    let mut plan = plan;
    plan.push(given_file(alloc, Text::of(alloc, "pod")?, manifest)?)?;
    Ok(plan)
}

/// What is made in the folder of a pod: first `created-N`, empty, N being the moment in 20 digits; `token`
/// with the token's 32 lower-case hex digits; the directories that any pod has, the empty one for statuses
/// among them; for each app `appsinfo/APP/manifest` with its image's manifest, and in its directory of
/// `stage1/rootfs/opt/stage2` the file `tree` with the text of its listing and the directory `rootfs` with the
/// directories and files of its listing; and last `pod` with the pod manifest. Each file of a root is copied
/// from its path below the `rootfs` of the image that it is from by the app's rendering, `images` being the
/// folders of the images at their places.
pub fn pod_plan(
    alloc: Global,
    now: u64,
    token: &[u8; 16],
    manifest: &[u8],
    images: &[Name],
    apps: &[PodApp],
) -> Result<Vec<PlanEntry>, NoMemory>
    requires names { IsDistinct bytes_eq (map (λ app. app.name) apps.now) }
    ensures entries { IfOk result (λ plan. plan.items ≡ pod_entries now token.now manifest.now images.now apps.now) }
    ensures plan { IfOk result (λ plan. is_plan plan.items ≡ true) }
    ensures pod { IfOk result (λ plan. MakesPod now token.now manifest.now (map files_of apps.now) plan.items) }
    ensures turn { IfOk result (λ plan. ComesInTurn now plan.items) }
    ensures whole { IfOk result (λ plan. MakesWhole plan.items) }
{
    let plan = head_plan(alloc, now, token)?;
    let plan = apps_plan(alloc, apps, images, plan)?;
    add_manifest(alloc, manifest, plan)
}
