// A pod is made by a plan, for prepared or for run.
ghost use Rattle.std.specs.Prelude.{◌≡◌, true, IfOk, IfErr};
ghost use Rattle.dir_trait.specs.Local.{IsActive};
ghost use Rattle.dir_trait.specs.Effects.{LeavesOpen};
ghost use Rattle.folder_building.specs.Plans.{is_plan};
ghost use Rattle.image_reading.specs.Trees.{ReadsNoTrees};
ghost use Rattle.pod_plan.specs.PickedTrees.{copies_no_tree};
ghost use Rattle.pod_build.specs.MakingRequests.{makes_pod};
ghost use Rattle.pod_build.specs.Progress.{nothing_made};
ghost use Rattle.pod_build.specs.Work.{MayMake, MakesUnderImages, WhereMakingPod, HasMakerFolder};
ghost use Rattle.pod_build.specs.Answers.{target, with_built, held_with, IsBuildAnswer};
ghost use Rattle.pod_build.specs.Causes.{FailsMaking, FollowsPlan, AreaHeldElsewhere};
ghost use Rattle.pod_build.specs.Makings.{HasMade};
ghost use Rattle.pod_build.specs.Handovers.{HandsOverMade};

use crate::error::{BuildError, make_refusal};
use crate::{make_prepared, make_running};
use dir_trait::{Dir, PodId};
use folder_building::PlanEntry;
use pod_locks::Owned;
use std::alloc::Global;

/// A pod that was prepared.
#[derive(Clone, Copy, Debug, PartialEq, Eq)]
pub enum Built {
    /// It stands in prepared, free for whoever runs it.
    Prepared(PodId),
    /// It stands in run, and this process owns it.
    Running(Owned),
}

/// Makes the pod by the plan, and keeps its own lock where it is to. The caller holds the lock of images.
pub(crate) fn make<D: Dir>(
    alloc: Global,
    dir: &mut D,
    draw: PodId,
    plan: &[PlanEntry],
    keep_owner: bool,
) -> Result<Built, BuildError>
    requires active { IsActive (D.shown dir.old).local }
    requires plan { is_plan plan.now ≡ true }
    ensures went { LeavesOpen D.observed (makes_pod draw (target keep_owner)) (with_built (D.shown dir.old).local draw result) (D.shown dir.old) (D.shown dir.new) }
    ensures trees { copies_no_tree plan.now ≡ true → ReadsNoTrees D.observed (D.shown dir.old) (D.shown dir.new) }
    ensures answer { IfOk result (IsBuildAnswer keep_owner draw (D.shown dir.old).local) }
    ensures refused { IfErr result (λ e. FailsMaking D.observed draw plan.now e (D.shown dir.old) (D.shown dir.new)) }
    ensures by_other_process { IfErr result (λ e. D.observed ≡ true → WhereMakingPod (MayMake (target keep_owner) plan.now draw) (MakesUnderImages draw) nothing_made (D.shown dir.old)
        (λ intent hs. AreaHeldElsewhere e (D.shown dir.old) (D.shown dir.new))) }
    ensures followed { IfOk result (λ built. D.observed ≡ true → FollowsPlan draw plan.now (D.shown dir.old) (D.shown dir.new)) }
    ensures made { IfOk result (λ built. D.observed ≡ true → WhereMakingPod (MayMake (target keep_owner) plan.now draw) (MakesUnderImages draw) nothing_made (D.shown dir.old)
        (λ intent hs. HasMade draw (target keep_owner) plan.now intent (held_with draw built hs) (D.shown dir.old) (D.shown dir.new))) }
    ensures whole { D.observed ≡ true → WhereMakingPod (MayMake (target keep_owner) plan.now draw) (MakesUnderImages draw) nothing_made (D.shown dir.old)
        (λ intent hs. HandsOverMade draw plan.now intent (D.shown dir.old) (D.shown dir.new)) }
    ensures left { IfErr result (λ e. D.observed ≡ true → WhereMakingPod (MayMake (target keep_owner) plan.now draw) (MakesUnderImages draw) nothing_made (D.shown dir.old)
        (λ intent hs. HasMakerFolder draw intent hs (D.shown dir.new))) }
{
    if keep_owner {
        match make_running(alloc, dir, draw, plan) {
            Ok(owned) => Ok(Built::Running(owned)),
            Err(error) => Err(make_refusal(alloc, plan, draw, error)),
        }
    } else {
        match make_prepared(alloc, dir, draw, plan) {
            Ok(()) => Ok(Built::Prepared(draw)),
            Err(error) => Err(make_refusal(alloc, plan, draw, error)),
        }
    }
}
