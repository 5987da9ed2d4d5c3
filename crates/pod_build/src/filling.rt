// The folder in prepare is filled, and moved on.
ghost use Rattle.std.specs.Prelude.{◌≡◌, [], List, IfOk, IfErr, IsErrOf, true};
ghost use Rattle.dir_trait.specs.Local.{IsActive};
ghost use Rattle.dir_trait.specs.Knowledge.{Knows};
ghost use Rattle.dir_trait.specs.Effects.{OnlyAsks};
ghost use Rattle.folder_building.specs.declared.plan.PlanEntry.{PlanEntry};
ghost use Rattle.folder_building.specs.Plans.{is_plan};
ghost use Rattle.folder_building.specs.Sources.{in_images};
ghost use Rattle.folder_building.specs.Stored.{HadContents};
ghost use Rattle.image_reading.specs.Trees.{ReadsNoTrees};
ghost use Rattle.pod_plan.specs.PickedTrees.{copies_no_tree};
ghost use Rattle.pod_build.specs.MakingRequests.{fills_pod, hands_pod, finishes_pod};
ghost use Rattle.pod_build.specs.Progress.{seen_making, in_prepare};
ghost use Rattle.pod_build.specs.Work.{MayMake, Owns, WhereMakingPod, HasMakerFolder};
ghost use Rattle.pod_build.specs.MakingCauses.{MakingWorkCause, LosesPod};
ghost use Rattle.pod_build.specs.Makings.{HasFilledPrepare, WherePlanFilled, IsHanded, HasMade};
ghost use Rattle.pod_build.specs.Handovers.{is_handed_to, HandsOverMade};

use crate::make_error::{MakeError, build_refusal, change_refusal};
use crate::place::area_before;
use dir_trait::{Area, Dir, PodId, Spot};
use folder_building::{PlanEntry, StoreSource, carry_out};
use std::alloc::Global;

// Carries the plan out in the folder. The files come from images, whose lock the caller holds.
fn fill<D: Dir>(
    alloc: Global,
    dir: &mut D,
    draw: PodId,
    plan: &[PlanEntry],
) -> Result<(), MakeError>
    requires active { IsActive (D.shown dir.old).local }
    requires plan { is_plan plan.now ≡ true }
    ensures worked { OnlyAsks D.observed (fills_pod draw) (D.shown dir.old) (D.shown dir.new) }
    ensures trees { copies_no_tree plan.now ≡ true → ReadsNoTrees D.observed (D.shown dir.old) (D.shown dir.new) }
    ensures cause { IfErr result (λ e. MakingWorkCause D.observed plan.now e (D.shown dir.old) (D.shown dir.new)) }
    ensures stray { IsErrOf result MakeError.Stray → D.observed ≡ true → LosesPod draw (D.shown dir.old) (D.shown dir.new) }
    ensures had { IfOk result (λ done. D.observed ≡ true → HadContents in_images plan.now (D.shown dir.old) (D.shown dir.new)) }
    ensures filled { IfOk result (λ done. D.observed ≡ true → (to : Area) → WhereMakingPod (MayMake to plan.now draw) (Owns draw) (in_prepare draw []) (D.shown dir.old)
        (λ intent hs. HasFilledPrepare plan.now draw intent hs (D.shown dir.new))) }
    ensures left { IfErr result (λ e. D.observed ≡ true → (to : Area) → WhereMakingPod (MayMake to plan.now draw) (Owns draw) (in_prepare draw []) (D.shown dir.old)
        (λ intent hs. HasMakerFolder draw intent hs (D.shown dir.new))) }
{
    let spot = Spot::of_pod(draw, Area::Prepare);
    let mut source = StoreSource;
    match carry_out(alloc, dir, &mut source, spot, plan) {
        Ok(()) => Ok(()),
        Err(error) => Err(build_refusal(error)),
    }
}

// Moves the folder on.
fn hand_over<D: Dir>(alloc: Global, dir: &mut D, draw: PodId, to: Area) -> Result<(), MakeError>
    requires active { IsActive (D.shown dir.old).local }
    requires handed { is_handed_to to ≡ true }
    ensures worked { OnlyAsks D.observed (hands_pod draw to) (D.shown dir.old) (D.shown dir.new) }
    ensures cause { IfErr result (λ e. MakingWorkCause D.observed [] e (D.shown dir.old) (D.shown dir.new)) }
    ensures stray { IsErrOf result MakeError.Stray → D.observed ≡ true → LosesPod draw (D.shown dir.old) (D.shown dir.new) }
    ensures handed { IfOk result (λ done. D.observed ≡ true → (plan : List PlanEntry) → WherePlanFilled to plan draw (D.shown dir.old)
        (λ intent hs entries. IsHanded draw to intent hs entries (D.shown dir.old) (D.shown dir.new))) }
    ensures whole { D.observed ≡ true → (plan : List PlanEntry) → WherePlanFilled to plan draw (D.shown dir.old)
        (λ intent hs entries. HandsOverMade draw plan intent (D.shown dir.old) (D.shown dir.new)) }
    ensures left { IfErr result (λ e. D.observed ≡ true → (plan : List PlanEntry) → WherePlanFilled to plan draw (D.shown dir.old)
        (λ intent hs entries. Knows (D.shown dir.new) (seen_making intent hs (in_prepare draw entries)))) }
{
    let from = Spot::of_pod(draw, area_before(to));
    let there = Spot::of_pod(draw, to);
    match dir.move_folder(alloc, from, there) {
        Ok(()) => Ok(()),
        Err(error) => Err(change_refusal(error)),
    }
}

/// Carries the plan out in the folder in prepare, and moves the folder on only then.
pub(crate) fn finish_pod<D: Dir>(
    alloc: Global,
    dir: &mut D,
    draw: PodId,
    plan: &[PlanEntry],
    to: Area,
) -> Result<(), MakeError>
    requires active { IsActive (D.shown dir.old).local }
    requires plan { is_plan plan.now ≡ true }
    requires handed { is_handed_to to ≡ true }
    ensures worked { OnlyAsks D.observed (finishes_pod draw to) (D.shown dir.old) (D.shown dir.new) }
    ensures trees { copies_no_tree plan.now ≡ true → ReadsNoTrees D.observed (D.shown dir.old) (D.shown dir.new) }
    ensures cause { IfErr result (λ e. MakingWorkCause D.observed plan.now e (D.shown dir.old) (D.shown dir.new)) }
    ensures stray { IsErrOf result MakeError.Stray → D.observed ≡ true → LosesPod draw (D.shown dir.old) (D.shown dir.new) }
    ensures had { IfOk result (λ done. D.observed ≡ true → HadContents in_images plan.now (D.shown dir.old) (D.shown dir.new)) }
    ensures made { IfOk result (λ done. D.observed ≡ true → WhereMakingPod (MayMake to plan.now draw) (Owns draw) (in_prepare draw []) (D.shown dir.old)
        (λ intent hs. HasMade draw to plan.now intent hs (D.shown dir.old) (D.shown dir.new))) }
    ensures whole { D.observed ≡ true → WhereMakingPod (MayMake to plan.now draw) (Owns draw) (in_prepare draw []) (D.shown dir.old)
        (λ intent hs. HandsOverMade draw plan.now intent (D.shown dir.old) (D.shown dir.new)) }
    ensures left { IfErr result (λ e. D.observed ≡ true → WhereMakingPod (MayMake to plan.now draw) (Owns draw) (in_prepare draw []) (D.shown dir.old)
        (λ intent hs. HasMakerFolder draw intent hs (D.shown dir.new))) }
{
    fill(alloc, dir, draw, plan)?;
    hand_over(alloc, dir, draw, to)
}
