// A pod is prepared, under the lock of images.
ghost use Rattle.std.specs.Prelude.{◌≡◌, [], true, IfOk, IfErr, IsErrOf};
ghost use Rattle.dir_model.specs.Causes.{Rose};
ghost use Rattle.dir_model.specs.Calls.{IsRun};
ghost use Rattle.dir_trait.specs.Local.{IsActive};
ghost use Rattle.dir_trait.specs.Effects.{LeavesOpen};
ghost use Rattle.image_reading.specs.Looks.{HoldsImages};
ghost use Rattle.lifecycle.specs.Executions.{IsConforming};
ghost use Rattle.pod_build.specs.Progress.{nothing_made};
ghost use Rattle.pod_build.specs.Work.{WhereMakingPod, HasMakerFolder};
ghost use Rattle.pod_build.specs.PickedReads.{ReadsPickedAlone};
ghost use Rattle.pod_build.specs.Requests.{prepares, prepares_under_lock};
ghost use Rattle.pod_build.specs.Answers.{target, with_built, held_with, IsBuildAnswer};
ghost use Rattle.pod_build.specs.Causes.{IsBuildRefused, IsRefusedUnderLock, AreaHeldElsewhere, IsMadeByPlan, FindsImagesFree};
ghost use Rattle.pod_build.specs.Preparations.{Began, IsAlone, HasGateAlone, HasPrepared, KnowsPrepared, HandsOverPlanned, IsHandedOver, IsPrepared, MakesFaithfully};

use crate::built::{Built, make};
use crate::error::{BuildError, gate_refusal, plan_refusal};
use ac_types::ImageRef;
use dir_files::{lock_area, unlock_area};
use dir_trait::{Area, Dir, Draw, Handle, Mode};
use pod_manifest::Options;
use pod_plan::plan_pod;
use std::alloc::Global;

// Prepares the pod under the lock of images, which this handle holds.
fn prepare_under_lock<D: Dir>(
    alloc: Global,
    dir: &mut D,
    gate: Handle,
    refs: &[ImageRef],
    options: &Options,
    draw: &Draw,
    now: u64,
    keep_owner: bool,
) -> Result<Built, BuildError>
    requires active { IsActive (D.shown dir.old).local }
    requires held { HoldsImages (D.shown dir.old).local gate }
    ensures went { LeavesOpen D.observed (prepares_under_lock draw.now.uuid (target keep_owner)) (with_built (D.shown dir.old).local draw.now.uuid result) (D.shown dir.old) (D.shown dir.new) }
    ensures trees { ReadsPickedAlone D.observed refs.now options.now (D.shown dir.old) (D.shown dir.new) }
    ensures answer { IfOk result (IsBuildAnswer keep_owner draw.now.uuid (D.shown dir.old).local) }
    ensures fault { IsErrOf result BuildError.DirFault → Rose (D.shown dir.old).faults (D.shown dir.new).faults }
    ensures refused { IfErr result (λ e. IsRefusedUnderLock D.observed refs.now options.now draw.now now e (D.shown dir.old) (D.shown dir.new)) }
    ensures by_other_process { IfErr result (λ e. D.observed ≡ true → WhereMakingPod (Began (target keep_owner) draw.now now) (HasGateAlone gate) nothing_made (D.shown dir.old)
        (λ intent hs. AreaHeldElsewhere e (D.shown dir.old) (D.shown dir.new))) }
    ensures planned { IfOk result (λ built. IsMadeByPlan D.observed refs.now options.now draw.now now (D.shown dir.old) (D.shown dir.new)) }
    ensures prepared { IfOk result (λ built. D.observed ≡ true → WhereMakingPod (Began (target keep_owner) draw.now now) (HasGateAlone gate) nothing_made (D.shown dir.old)
        (λ intent hs. HasPrepared refs.now options.now draw.now now (target keep_owner) intent (held_with draw.now.uuid built hs) (D.shown dir.old) (D.shown dir.new))) }
    ensures whole { D.observed ≡ true → WhereMakingPod (Began (target keep_owner) draw.now now) (HasGateAlone gate) nothing_made (D.shown dir.old)
        (λ intent hs. HandsOverPlanned refs.now options.now draw.now now (target keep_owner) intent (D.shown dir.old) (D.shown dir.new)) }
    ensures left { IfErr result (λ e. D.observed ≡ true → WhereMakingPod (Began (target keep_owner) draw.now now) (HasGateAlone gate) nothing_made (D.shown dir.old)
        (λ intent hs. HasMakerFolder draw.now.uuid intent hs (D.shown dir.new))) }
{
    match plan_pod(alloc, dir, gate, refs, options, now, &draw.token) {
        Ok(plan) => make(alloc, dir, draw.uuid, &plan, keep_owner),
        Err(error) => Err(plan_refusal(error)),
    }
}

/// Prepares a pod: for each reference an app of the best image of the store that it matches, rendered over that
/// image's dependencies. The pod's folder is named by the draw and made in embryo, filled in prepare, and moved to
/// prepared when all of it is written and synced; or to run, where this process is to keep the pod. From the
/// listing of the images to the last copy the lock of their area is held, shared.
///
/// Refused in this order. `Busy` with images, where another process holds that area's lock exclusively. `Damaged`
/// with the path of a file of the store that is missing or has no reading. `NoMatch` for the first reference that no
/// image matches. `DepError` for the first fault in the dependencies of an image. `GenError` for the first refusal
/// of the pod's manifest. `RenderError` and `ListingError` for the first root that is too large. `Busy` with
/// embryo. `Taken` where a folder with that name stands in embryo. `Damaged` with the path of a file of the store
/// that is missing or isn't what its image's listing says, while it is copied. `DirFault` and `NoMemory` where the
/// directory failed or memory ran out, and `Stray` where the directory's answers contradict what this process made:
/// never while every process keeps the local rules. A refused call holds no lock, and leaves nothing, or its folder in
/// embryo or in prepare.
pub fn prepare<D: Dir>(
    alloc: Global,
    dir: &mut D,
    refs: &[ImageRef],
    options: &Options,
    draw: &Draw,
    now: u64,
    keep_owner: bool,
) -> Result<Built, BuildError>
    requires active { IsActive (D.shown dir.old).local }
    ensures went { LeavesOpen D.observed (prepares draw.now.uuid (target keep_owner)) (with_built (D.shown dir.old).local draw.now.uuid result) (D.shown dir.old) (D.shown dir.new) }
    ensures trees { ReadsPickedAlone D.observed refs.now options.now (D.shown dir.old) (D.shown dir.new) }
    ensures answer { IfOk result (IsBuildAnswer keep_owner draw.now.uuid (D.shown dir.old).local) }
    ensures fault { IsErrOf result BuildError.DirFault → Rose (D.shown dir.old).faults (D.shown dir.new).faults }
    ensures free { IfOk result (λ built. FindsImagesFree D.observed (D.shown dir.old) (D.shown dir.new)) }
    ensures refused { IfErr result (λ e. IsBuildRefused D.observed refs.now options.now draw.now now e (D.shown dir.old) (D.shown dir.new)) }
    ensures by_other_process { IfErr result (λ e. D.observed ≡ true → WhereMakingPod (Began (target keep_owner) draw.now now) IsAlone nothing_made (D.shown dir.old)
        (λ intent hs. AreaHeldElsewhere e (D.shown dir.old) (D.shown dir.new))) }
    ensures planned { IfOk result (λ built. IsMadeByPlan D.observed refs.now options.now draw.now now (D.shown dir.old) (D.shown dir.new)) }
    ensures prepared { IfOk result (λ built. D.observed ≡ true → IsConforming (D.shown dir.new).trace
        → WhereMakingPod (Began (target keep_owner) draw.now now) IsAlone nothing_made (D.shown dir.old)
        (λ intent hs. IsPrepared refs.now options.now (D.shown dir.old).process draw.now.uuid (target keep_owner) (D.shown dir.old).trace (D.shown dir.new).trace)) }
    ensures faithful { IfOk result (λ built. D.observed ≡ true → IsRun (D.shown dir.new).trace
        → WhereMakingPod (Began (target keep_owner) draw.now now) IsAlone nothing_made (D.shown dir.old)
        (λ intent hs. IsHandedOver (D.shown dir.old).process draw.now.uuid (target keep_owner) (D.shown dir.old).trace (D.shown dir.new).trace)) }
    ensures makers { D.observed ≡ true → MakesFaithfully (target keep_owner) draw.now now (D.shown dir.old) (D.shown dir.new) }
    ensures knows { IfOk result (λ built. D.observed ≡ true → WhereMakingPod (Began (target keep_owner) draw.now now) IsAlone nothing_made (D.shown dir.old)
        (λ intent hs. KnowsPrepared draw.now.uuid (target keep_owner) intent (held_with draw.now.uuid built []) (D.shown dir.new))) }
    ensures left { IfErr result (λ e. D.observed ≡ true → WhereMakingPod (Began (target keep_owner) draw.now now) IsAlone nothing_made (D.shown dir.old)
        (λ intent hs. HasMakerFolder draw.now.uuid intent hs (D.shown dir.new))) }
    ensures lawful { IsErrOf result BuildError.Stray → D.observed ≡ true → IsConforming (D.shown dir.new).trace → ⊥ }
{
    match lock_area(alloc, dir, Area::Images, Mode::Shared) {
        Ok(gate) => {
            let result = prepare_under_lock(alloc, dir, gate, refs, options, draw, now, keep_owner);
            unlock_area(dir, gate);
            result
        }
        Err(error) => Err(gate_refusal(error)),
    }
}
