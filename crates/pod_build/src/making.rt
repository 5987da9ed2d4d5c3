// A pod is made, for prepared or for run.
ghost use Rattle.std.specs.Prelude.{◌≡◌, Some, ◌∷◌, IfOk, IfErr, IsErrOf, true};
ghost use Rattle.dir_trait.specs.Local.{IsActive, IsUnopened};
ghost use Rattle.dir_trait.specs.Effects.{OnlyAsks, LeavesOpen};
ghost use Rattle.lifecycle.specs.Executions.{IsConforming};
ghost use Rattle.folder_building.specs.Plans.{is_plan};
ghost use Rattle.folder_building.specs.Sources.{in_images};
ghost use Rattle.folder_building.specs.Stored.{HadContents};
ghost use Rattle.image_reading.specs.Trees.{ReadsNoTrees};
ghost use Rattle.pod_plan.specs.PickedTrees.{copies_no_tree};
ghost use Rattle.pod_build.specs.MakingRequests.{makes_pod};
ghost use Rattle.pod_build.specs.Progress.{nothing_made, own_held};
ghost use Rattle.pod_build.specs.Work.{MayMake, MakesUnderImages, WhereMakingPod, HasMakerFolder};
ghost use Rattle.pod_build.specs.MakingCauses.{MakeCause, EmbryoBusyElsewhere, HasMadeFolder};
ghost use Rattle.pod_build.specs.Makings.{HasMade, with_owned};
ghost use Rattle.pod_build.specs.Handovers.{HandsOverMade};
ghost use Rattle.pod_locks.specs.Running.{IsOwned, RunsPod};

use crate::embryo::begin_pod;
use crate::filling::finish_pod;
use crate::make_error::MakeError;
use dir_trait::{Area, Dir, Mode, PodId};
use folder_building::PlanEntry;
use pod_locks::Owned;
use std::alloc::Global;

/// Makes the pod with this draw by the plan and leaves it in prepared, free for whoever runs it. Its
/// folder is made in embryo under that area's lock, its own lock is taken there and held until it is
/// in prepared; in prepare the plan is carried out, and the folder moves on only once every change
/// and every sync was answered Ok. The caller holds the lock of images.
///
/// Refused in this order. `Busy` where another process holds the lock of embryo exclusively. `Taken`
/// where a folder with the pod's name stands in embryo. `Unlike` with the number of the first entry of the
/// plan whose file in images was missing at a read, or of which what was read isn't what the plan asks
/// for. `DirFault` and `NoMemory` where the directory failed or memory ran out, and `Stray` where an
/// answer showed that another process took the folder that this one had made in embryo, or changed it in
/// prepare: never while every process keeps the local rules. A refused call holds no lock, and leaves nothing, or its folder in embryo or in prepare.
pub fn make_prepared<D: Dir>(
    alloc: Global,
    dir: &mut D,
    draw: PodId,
    plan: &[PlanEntry],
) -> Result<(), MakeError>
    requires active { IsActive (D.shown dir.old).local }
    requires plan { is_plan plan.now ≡ true }
    ensures worked { OnlyAsks D.observed (makes_pod draw Area.Prepared) (D.shown dir.old) (D.shown dir.new) }
    ensures trees { copies_no_tree plan.now ≡ true → ReadsNoTrees D.observed (D.shown dir.old) (D.shown dir.new) }
    ensures cause { IfErr result (λ e. MakeCause D.observed draw plan.now e (D.shown dir.old) (D.shown dir.new)) }
    ensures by_other_process { IfErr result (λ e. D.observed ≡ true → WhereMakingPod (MayMake Area.Prepared plan.now draw) (MakesUnderImages draw) nothing_made (D.shown dir.old)
        (λ intent hs. EmbryoBusyElsewhere e (D.shown dir.old) (D.shown dir.new))) }
    ensures begins { IfOk result (λ done. D.observed ≡ true → HasMadeFolder draw (D.shown dir.old) (D.shown dir.new)) }
    ensures had { IfOk result (λ done. D.observed ≡ true → HadContents in_images plan.now (D.shown dir.old) (D.shown dir.new)) }
    ensures made { IfOk result (λ done. D.observed ≡ true → WhereMakingPod (MayMake Area.Prepared plan.now draw) (MakesUnderImages draw) nothing_made (D.shown dir.old)
        (λ intent hs. HasMade draw Area.Prepared plan.now intent hs (D.shown dir.old) (D.shown dir.new))) }
    ensures whole { D.observed ≡ true → WhereMakingPod (MayMake Area.Prepared plan.now draw) (MakesUnderImages draw) nothing_made (D.shown dir.old)
        (λ intent hs. HandsOverMade draw plan.now intent (D.shown dir.old) (D.shown dir.new)) }
    ensures left { IfErr result (λ e. D.observed ≡ true → WhereMakingPod (MayMake Area.Prepared plan.now draw) (MakesUnderImages draw) nothing_made (D.shown dir.old)
        (λ intent hs. HasMakerFolder draw intent hs (D.shown dir.new))) }
    ensures lawful { IsErrOf result MakeError.Stray → D.observed ≡ true → IsConforming (D.shown dir.new).trace → ⊥ }
{
    let own = begin_pod(alloc, dir, draw)?;
    let result = finish_pod(alloc, dir, draw, plan, Area::Prepared);
    dir.close(own);
    result
}

/// Makes the pod as `make_prepared` does, but moves it on to run and keeps its own lock. Refused for
/// the same causes, and leaves the same then.
pub fn make_running<D: Dir>(
    alloc: Global,
    dir: &mut D,
    draw: PodId,
    plan: &[PlanEntry],
) -> Result<Owned, MakeError>
    requires active { IsActive (D.shown dir.old).local }
    requires plan { is_plan plan.now ≡ true }
    ensures owned { IfOk result (λ owned. IsOwned draw (D.shown dir.old).local owned) }
    ensures went { LeavesOpen D.observed (makes_pod draw Area.Run) (with_owned (D.shown dir.old).local draw result) (D.shown dir.old) (D.shown dir.new) }
    ensures trees { copies_no_tree plan.now ≡ true → ReadsNoTrees D.observed (D.shown dir.old) (D.shown dir.new) }
    ensures cause { IfErr result (λ e. MakeCause D.observed draw plan.now e (D.shown dir.old) (D.shown dir.new)) }
    ensures by_other_process { IfErr result (λ e. D.observed ≡ true → WhereMakingPod (MayMake Area.Run plan.now draw) (MakesUnderImages draw) nothing_made (D.shown dir.old)
        (λ intent hs. EmbryoBusyElsewhere e (D.shown dir.old) (D.shown dir.new))) }
    ensures runs { IfOk result (λ owned. D.observed ≡ true → WhereMakingPod (MayMake Area.Run plan.now draw) (MakesUnderImages draw) nothing_made (D.shown dir.old)
        (λ intent hs. RunsPod draw (D.shown dir.new))) }
    ensures begins { IfOk result (λ done. D.observed ≡ true → HasMadeFolder draw (D.shown dir.old) (D.shown dir.new)) }
    ensures had { IfOk result (λ done. D.observed ≡ true → HadContents in_images plan.now (D.shown dir.old) (D.shown dir.new)) }
    ensures made { IfOk result (λ owned. D.observed ≡ true → WhereMakingPod (MayMake Area.Run plan.now draw) (MakesUnderImages draw) nothing_made (D.shown dir.old)
        (λ intent hs. HasMade draw Area.Run plan.now intent (own_held draw owned.own (Some Mode.Exclusive) ∷ hs) (D.shown dir.old) (D.shown dir.new))) }
    ensures whole { D.observed ≡ true → WhereMakingPod (MayMake Area.Run plan.now draw) (MakesUnderImages draw) nothing_made (D.shown dir.old)
        (λ intent hs. HandsOverMade draw plan.now intent (D.shown dir.old) (D.shown dir.new)) }
    ensures left { IfErr result (λ e. D.observed ≡ true → WhereMakingPod (MayMake Area.Run plan.now draw) (MakesUnderImages draw) nothing_made (D.shown dir.old)
        (λ intent hs. HasMakerFolder draw intent hs (D.shown dir.new))) }
    ensures lawful { IsErrOf result MakeError.Stray → D.observed ≡ true → IsConforming (D.shown dir.new).trace → ⊥ }
{
    let own = begin_pod(alloc, dir, draw)?;
    match finish_pod(alloc, dir, draw, plan, Area::Run) {
        Ok(()) => {
            let area = Area::Run;
            Ok(Owned {
                pod: draw,
                area,
                own,
            })
        }
        Err(error) => {
            dir.close(own);
            Err(error)
        }
    }
}
