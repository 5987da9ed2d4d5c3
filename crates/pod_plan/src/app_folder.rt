// The files of an app.
ghost use Rattle.std.specs.Prelude.{◌≡◌, ◌++◌, IfOk};
ghost use Rattle.dir_model.specs.Trees.{app_root};
ghost use Rattle.pod_plan.specs.PodPlans.{app_entries};
ghost use Rattle.pod_plan.specs.AppParts.{info_entries, stage_entries, IsPlanned};

use crate::entries::{around, directory, given_file, joined};
use crate::pod_app::PodApp;
use crate::root_folder::root_plan;
use ac_types::NoMemory;
use dir_trait::Name;
use folder_building::PlanEntry;
use std::alloc::Global;

const INFO: &str = "appsinfo/";

const STAGE: &str = "stage1/rootfs/opt/stage2/";

// The plan, and after it the directory for an app's image, with the image's manifest.
fn info_plan(alloc: Global, app: &PodApp, plan: Vec<PlanEntry>) -> Result<Vec<PlanEntry>, NoMemory>
    ensures { IfOk result (λ new. new.items ≡ plan.items ++ info_entries app.now) }
{
    let mut plan = plan;
    let name = app.name.as_str();
    let manifest = around(alloc, INFO, name, "/manifest")?;
    plan.push(directory(joined(alloc, INFO, name)?))?;
    plan.push(given_file(alloc, manifest, app.manifest.as_slice())?)?;
    Ok(plan)
}

// The plan, and after it the directory for an app's root, with the root's listing and the root's own directory.
fn stage_plan(alloc: Global, app: &PodApp, plan: Vec<PlanEntry>) -> Result<Vec<PlanEntry>, NoMemory>
    ensures { IfOk result (λ new. new.items ≡ plan.items ++ stage_entries app.now) }
{
    let mut plan = plan;
    let name = app.name.as_str();
    let text = app.listing.write(alloc)?;
    let tree = around(alloc, STAGE, name, "/tree")?;
    plan.push(directory(joined(alloc, STAGE, name)?))?;
    plan.push(given_file(alloc, tree, text.as_slice())?)?;
    plan.push(directory(around(alloc, STAGE, name, "/rootfs")?))?;
    Ok(plan)
}

/// The plan, and after it the files of an app: its image's manifest, its root's listing, and its root.
pub(crate) fn app_plan(
    alloc: Global,
    app: &PodApp,
    images: &[Name],
    plan: Vec<PlanEntry>,
) -> Result<Vec<PlanEntry>, NoMemory>
    ensures entries { IfOk result (λ new. new.items ≡ plan.items ++ app_entries images.now app.now) }
    ensures kind { IfOk result (λ new. IsPlanned images.now app.now) }
{
    let _lines = app.listing.as_slice();
    let root = around(alloc, STAGE, app.name.as_str(), "/rootfs")?;
    let plan = info_plan(alloc, app, plan)?;
    let plan = stage_plan(alloc, app, plan)?;
    root_plan(alloc, app, images, root.as_str(), plan)
}
