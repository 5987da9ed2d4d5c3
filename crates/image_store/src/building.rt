// The folder of an image, built in incoming, where only this process changes it.
ghost use Rattle.std.specs.Prelude.{◌≡◌, ◌≤◌, ℕ, [], true, false, Some, None, IfOk, IfErr, IsErrOf};
ghost use Rattle.dir_model.specs.Causes.{Rose};
ghost use Rattle.dir_trait.specs.Local.{IsActive};
ghost use Rattle.dir_trait.specs.Knowledge.{Knows};
ghost use Rattle.dir_trait.specs.Effects.{OnlyAsks};
ghost use Rattle.folder_building.specs.Plans.{is_plan, AreMade};
ghost use Rattle.image_store.specs.Requests.{building_spot, makes_image};
ghost use Rattle.image_store.specs.Work.{seen_importing, holding, UnderImportLocks, WhereImporting, HasImportFolder, HasFilledImport};
ghost use Rattle.image_store.specs.Causes.{bundle_source_at, ChangeCause, FillCause, BuildCause};
ghost use Rattle.image_store.specs.Imports.{IsOf};

use crate::error::{change_refusal, out_of_memory};
use crate::refusing::build_refusal;
use bundle_image::BundleImage;
use dir_trait::{Area, Bundle, Dir, PodId, Spot};
use folder_building::{BundleSource, PlanEntry, carry_out, image_plan};
use image_reading::StoreError;
use std::alloc::Global;

/// Where the process with this draw builds an image.
pub(crate) fn building_spot(draw: PodId) -> Spot
    ensures { result ≡ building_spot draw }
{
    Spot {
        area: Area::Incoming,
        name: draw.name(),
    }
}

// Makes the folder, which nobody else makes.
fn make_folder<D: Dir>(alloc: Global, dir: &mut D, draw: PodId) -> Result<(), StoreError>
    requires active { IsActive (D.shown dir.old).local }
    ensures worked { OnlyAsks D.observed (makes_image (building_spot draw)) (D.shown dir.old) (D.shown dir.new) }
    ensures cause { IfErr result (λ e. ChangeCause D.observed e (D.shown dir.old) (D.shown dir.new)) }
    ensures made { IfOk result (λ done. D.observed ≡ true → WhereImporting draw UnderImportLocks false None (D.shown dir.old)
        (λ intent hs. Knows (D.shown dir.new) (seen_importing intent hs true (Some (holding (building_spot draw) []))))) }
    ensures left { IfErr result (λ e. D.observed ≡ true → WhereImporting draw UnderImportLocks false None (D.shown dir.old)
        (λ intent hs. HasImportFolder draw intent hs (D.shown dir.new))) }
{
    let spot = building_spot(draw);
    match dir.make_folder(alloc, spot) {
        Ok(()) => Ok(()),
        Err(error) => Err(change_refusal(error)),
    }
}

// Fills the folder by the plan, from the bundle's files.
fn fill<D: Dir, B: Bundle>(
    alloc: Global,
    dir: &mut D,
    bundle: &mut B,
    path: &str,
    draw: PodId,
    plan: &[PlanEntry],
) -> Result<(), StoreError>
    requires active { IsActive (D.shown dir.old).local }
    requires plan { is_plan plan.now ≡ true }
    ensures worked { OnlyAsks D.observed (makes_image (building_spot draw)) (D.shown dir.old) (D.shown dir.new) }
    ensures bundle { (B.shown bundle.old).faults ≤ (B.shown bundle.new).faults }
    ensures bundle_cause { IsErrOf result StoreError.BundleFault → Rose (B.shown bundle.old).faults (B.shown bundle.new).faults }
    ensures cause { IfErr result (λ e. FillCause D.observed (bundle_source_at B.observed (B.shown bundle.old).tree path.now) plan.now e (D.shown dir.old) (D.shown dir.new)) }
    ensures done { IfOk result (λ done. D.observed ≡ true → WhereImporting draw UnderImportLocks true (Some (holding (building_spot draw) [])) (D.shown dir.old)
        (λ intent hs. HasFilledImport (AreMade plan.now) draw intent hs (D.shown dir.new))) }
    ensures left { IfErr result (λ e. D.observed ≡ true → WhereImporting draw UnderImportLocks true (Some (holding (building_spot draw) [])) (D.shown dir.old)
        (λ intent hs. HasImportFolder draw intent hs (D.shown dir.new))) }
{
    let spot = building_spot(draw);
    let mut source = BundleSource { bundle, root: path };
    let filled = carry_out(alloc, dir, &mut source, spot, plan);
    let BundleSource { bundle: _, root: _ } = source;
    match filled {
        Ok(()) => Ok(()),
        Err(error) => Err(build_refusal(plan, error)),
    }
}

// Makes the folder and fills it by the plan.
fn carry<D: Dir, B: Bundle>(
    alloc: Global,
    dir: &mut D,
    bundle: &mut B,
    path: &str,
    draw: PodId,
    plan: &[PlanEntry],
) -> Result<(), StoreError>
    requires active { IsActive (D.shown dir.old).local }
    requires plan { is_plan plan.now ≡ true }
    ensures worked { OnlyAsks D.observed (makes_image (building_spot draw)) (D.shown dir.old) (D.shown dir.new) }
    ensures bundle { (B.shown bundle.old).faults ≤ (B.shown bundle.new).faults }
    ensures bundle_cause { IsErrOf result StoreError.BundleFault → Rose (B.shown bundle.old).faults (B.shown bundle.new).faults }
    ensures cause { IfErr result (λ e. FillCause D.observed (bundle_source_at B.observed (B.shown bundle.old).tree path.now) plan.now e (D.shown dir.old) (D.shown dir.new)) }
    ensures done { IfOk result (λ done. D.observed ≡ true → WhereImporting draw UnderImportLocks false None (D.shown dir.old)
        (λ intent hs. HasFilledImport (AreMade plan.now) draw intent hs (D.shown dir.new))) }
    ensures left { IfErr result (λ e. D.observed ≡ true → WhereImporting draw UnderImportLocks false None (D.shown dir.old)
        (λ intent hs. HasImportFolder draw intent hs (D.shown dir.new))) }
{
    make_folder(alloc, dir, draw)?;
    fill(alloc, dir, bundle, path, draw, plan)
}

/// Builds the folder of the image that the bundle holds.
pub(crate) fn build<D: Dir, B: Bundle>(
    alloc: Global,
    dir: &mut D,
    bundle: &mut B,
    path: &str,
    image: &BundleImage,
    now: u64,
    draw: PodId,
) -> Result<(), StoreError>
    requires active { IsActive (D.shown dir.old).local }
    ensures worked { OnlyAsks D.observed (makes_image (building_spot draw)) (D.shown dir.old) (D.shown dir.new) }
    ensures bundle { (B.shown bundle.old).faults ≤ (B.shown bundle.new).faults }
    ensures bundle_cause { IsErrOf result StoreError.BundleFault → Rose (B.shown bundle.old).faults (B.shown bundle.new).faults }
    ensures cause { IfErr result (λ e. BuildCause D.observed (bundle_source_at B.observed (B.shown bundle.old).tree path.now) image.now.listing e (D.shown dir.old) (D.shown dir.new)) }
    ensures done { IfOk result (λ done. D.observed ≡ true → WhereImporting draw UnderImportLocks false None (D.shown dir.old)
        (λ intent hs. HasFilledImport (IsOf image.now now) draw intent hs (D.shown dir.new))) }
    ensures left { IfErr result (λ e. D.observed ≡ true → WhereImporting draw UnderImportLocks false None (D.shown dir.old)
        (λ intent hs. HasImportFolder draw intent hs (D.shown dir.new))) }
{
    match image_plan(alloc, image.bytes.as_slice(), image.id, &image.listing, now) {
        Ok(plan) => carry(alloc, dir, bundle, path, draw, &plan),
        Err(error) => Err(out_of_memory(error)),
    }
}
