// A pod's folder, made in embryo and brought to prepare with its own lock held.
ghost use Rattle.std.specs.Prelude.{◌≡◌, Some, [], ◌∷◌, IfOk, IfErr, IsErrOf, true};
ghost use Rattle.dir_trait.specs.Local.{IsActive, IsUnopened};
ghost use Rattle.dir_trait.specs.Knowledge.{Knows};
ghost use Rattle.dir_trait.specs.DirCalls.{ExtendsBy};
ghost use Rattle.dir_trait.specs.Effects.{OnlyAsks, LeavesOpen};
ghost use Rattle.pod_build.specs.MakingRequests.{begins_pod, locks_own};
ghost use Rattle.pod_build.specs.Progress.{seen_making, nothing_made, in_embryo, in_prepare, own_held, with_own};
ghost use Rattle.pod_build.specs.Work.{IsMaker, MakesUnderImages, UnderMakingLocks, Owns, WhereMakingPod, HasMakerFolder};
ghost use Rattle.pod_build.specs.MakingCauses.{MakingWorkCause, EmbryoCause, MakeCause, EmbryoBusyElsewhere, MakesEmbryo, MakesFirst, HasMadeFolder, LosesEmbryo, BringsToPrepare, LosesOwn};

use crate::make_error::{MakeError, change_refusal, lock_refusal, make_refusal};
use crate::place::area_before;
use dir_files::{lock_area, unlock_area};
use dir_trait::{Area, Dir, Handle, Mode, PodId, Spot, Which};
use std::alloc::Global;

// Makes the folder in embryo.
fn make_embryo<D: Dir>(alloc: Global, dir: &mut D, draw: PodId) -> Result<(), MakeError>
    requires active { IsActive (D.shown dir.old).local }
    ensures worked { OnlyAsks D.observed (begins_pod draw) (D.shown dir.old) (D.shown dir.new) }
    ensures cause { IfErr result (λ e. EmbryoCause D.observed draw e (D.shown dir.old) (D.shown dir.new)) }
    ensures plain { IsErrOf result MakeError.Stray → ⊥ }
    ensures makes { IfOk result (λ done. D.observed ≡ true → MakesEmbryo draw (D.shown dir.old) (D.shown dir.new)) }
    ensures made { IfOk result (λ done. D.observed ≡ true → WhereMakingPod (IsMaker draw) (UnderMakingLocks draw) nothing_made (D.shown dir.old)
        (λ intent hs. Knows (D.shown dir.new) (seen_making intent hs (in_embryo draw)))) }
    ensures left { IfErr result (λ e. D.observed ≡ true → WhereMakingPod (IsMaker draw) (UnderMakingLocks draw) nothing_made (D.shown dir.old)
        (λ intent hs. HasMakerFolder draw intent hs (D.shown dir.new))) }
{
    let spot = Spot::of_pod(draw, Area::Embryo);
    match dir.make_folder(alloc, spot) {
        Ok(()) => Ok(()),
        Err(error) => Err(make_refusal(error)),
    }
}

// Opens the pod's own lock in embryo and takes it: from then on nobody takes the pod for given up.
fn lock_own<D: Dir>(alloc: Global, dir: &mut D, draw: PodId) -> Result<Handle, MakeError>
    requires active { IsActive (D.shown dir.old).local }
    ensures went { LeavesOpen D.observed (begins_pod draw) (with_own (D.shown dir.old).local draw result) (D.shown dir.old) (D.shown dir.new) }
    ensures unopened { IfOk result (λ own. IsUnopened (D.shown dir.old).local own) }
    ensures cause { IfErr result (λ e. MakingWorkCause D.observed [] e (D.shown dir.old) (D.shown dir.new)) }
    ensures stray { IsErrOf result MakeError.Stray → D.observed ≡ true → LosesEmbryo draw (D.shown dir.old) (D.shown dir.new) }
    ensures locks { IfOk result (λ own. D.observed ≡ true → ExtendsBy (locks_own draw) (D.shown dir.old) (D.shown dir.new)) }
    ensures held { IfOk result (λ own. D.observed ≡ true → WhereMakingPod (IsMaker draw) (UnderMakingLocks draw) (in_embryo draw) (D.shown dir.old)
        (λ intent hs. Knows (D.shown dir.new) (seen_making intent (own_held draw own (Some Mode.Exclusive) ∷ hs) (in_embryo draw)))) }
    ensures left { IfErr result (λ e. D.observed ≡ true → WhereMakingPod (IsMaker draw) (UnderMakingLocks draw) (in_embryo draw) (D.shown dir.old)
        (λ intent hs. HasMakerFolder draw intent hs (D.shown dir.new))) }
{
    let spot = Spot::of_pod(draw, Area::Embryo);
    match dir.open(alloc, spot, Which::Own) {
        Ok(own) => match dir.try_lock(alloc, own, Mode::Exclusive) {
            Ok(()) => Ok(own),
            Err(error) => {
                dir.close(own);
                Err(change_refusal(error))
            }
        },
        Err(error) => Err(change_refusal(error)),
    }
}

// Moves the folder to prepare.
fn leave_embryo<D: Dir>(alloc: Global, dir: &mut D, draw: PodId) -> Result<(), MakeError>
    requires active { IsActive (D.shown dir.old).local }
    ensures worked { OnlyAsks D.observed (begins_pod draw) (D.shown dir.old) (D.shown dir.new) }
    ensures cause { IfErr result (λ e. MakingWorkCause D.observed [] e (D.shown dir.old) (D.shown dir.new)) }
    ensures stray { IsErrOf result MakeError.Stray → D.observed ≡ true → LosesEmbryo draw (D.shown dir.old) (D.shown dir.new) }
    ensures brings { IfOk result (λ done. D.observed ≡ true → BringsToPrepare draw (D.shown dir.old) (D.shown dir.new)) }
    ensures moved { IfOk result (λ done. D.observed ≡ true → WhereMakingPod (IsMaker draw) (Owns draw) (in_embryo draw) (D.shown dir.old)
        (λ intent hs. Knows (D.shown dir.new) (seen_making intent hs (in_prepare draw [])))) }
    ensures left { IfErr result (λ e. D.observed ≡ true → WhereMakingPod (IsMaker draw) (Owns draw) (in_embryo draw) (D.shown dir.old)
        (λ intent hs. Knows (D.shown dir.new) (seen_making intent hs (in_embryo draw)))) }
{
    let from = Spot::of_pod(draw, area_before(Area::Prepare));
    let to = Spot::of_pod(draw, Area::Prepare);
    match dir.move_folder(alloc, from, to) {
        Ok(()) => Ok(()),
        Err(error) => Err(change_refusal(error)),
    }
}

// Takes the pod's own lock and moves the folder to prepare, under the lock of embryo.
fn take_out<D: Dir>(alloc: Global, dir: &mut D, draw: PodId) -> Result<Handle, MakeError>
    requires active { IsActive (D.shown dir.old).local }
    ensures went { LeavesOpen D.observed (begins_pod draw) (with_own (D.shown dir.old).local draw result) (D.shown dir.old) (D.shown dir.new) }
    ensures unopened { IfOk result (λ own. IsUnopened (D.shown dir.old).local own) }
    ensures cause { IfErr result (λ e. MakingWorkCause D.observed [] e (D.shown dir.old) (D.shown dir.new)) }
    ensures stray { IsErrOf result MakeError.Stray → D.observed ≡ true → LosesEmbryo draw (D.shown dir.old) (D.shown dir.new) }
    ensures brings { IfOk result (λ own. D.observed ≡ true → BringsToPrepare draw (D.shown dir.old) (D.shown dir.new)) }
    ensures held { IfOk result (λ own. D.observed ≡ true → WhereMakingPod (IsMaker draw) (UnderMakingLocks draw) (in_embryo draw) (D.shown dir.old)
        (λ intent hs. Knows (D.shown dir.new) (seen_making intent (own_held draw own (Some Mode.Exclusive) ∷ hs) (in_prepare draw [])))) }
    ensures left { IfErr result (λ e. D.observed ≡ true → WhereMakingPod (IsMaker draw) (UnderMakingLocks draw) (in_embryo draw) (D.shown dir.old)
        (λ intent hs. HasMakerFolder draw intent hs (D.shown dir.new))) }
{
    let own = lock_own(alloc, dir, draw)?;
    match leave_embryo(alloc, dir, draw) {
        Ok(()) => Ok(own),
        Err(error) => {
            dir.close(own);
            Err(error)
        }
    }
}

// Makes the folder and brings it to prepare, under the lock of embryo.
fn make_and_take_out<D: Dir>(alloc: Global, dir: &mut D, draw: PodId) -> Result<Handle, MakeError>
    requires active { IsActive (D.shown dir.old).local }
    ensures went { LeavesOpen D.observed (begins_pod draw) (with_own (D.shown dir.old).local draw result) (D.shown dir.old) (D.shown dir.new) }
    ensures unopened { IfOk result (λ own. IsUnopened (D.shown dir.old).local own) }
    ensures cause { IfErr result (λ e. EmbryoCause D.observed draw e (D.shown dir.old) (D.shown dir.new)) }
    ensures stray { IsErrOf result MakeError.Stray → D.observed ≡ true → LosesOwn draw (D.shown dir.old) (D.shown dir.new) }
    ensures first { IfOk result (λ own. D.observed ≡ true → MakesFirst draw (D.shown dir.old) (D.shown dir.new)) }
    ensures brings { IfOk result (λ own. D.observed ≡ true → BringsToPrepare draw (D.shown dir.old) (D.shown dir.new)) }
    ensures held { IfOk result (λ own. D.observed ≡ true → WhereMakingPod (IsMaker draw) (UnderMakingLocks draw) nothing_made (D.shown dir.old)
        (λ intent hs. Knows (D.shown dir.new) (seen_making intent (own_held draw own (Some Mode.Exclusive) ∷ hs) (in_prepare draw [])))) }
    ensures left { IfErr result (λ e. D.observed ≡ true → WhereMakingPod (IsMaker draw) (UnderMakingLocks draw) nothing_made (D.shown dir.old)
        (λ intent hs. HasMakerFolder draw intent hs (D.shown dir.new))) }
{
    make_embryo(alloc, dir, draw)?;
    take_out(alloc, dir, draw)
}

/// Makes the pod's folder, empty, with its own lock held, and brings it to prepare. The lock of embryo
/// is given back then, as whoever sweeps embryos waits for it.
pub(crate) fn begin_pod<D: Dir>(
    alloc: Global,
    dir: &mut D,
    draw: PodId,
) -> Result<Handle, MakeError>
    requires active { IsActive (D.shown dir.old).local }
    ensures went { LeavesOpen D.observed (begins_pod draw) (with_own (D.shown dir.old).local draw result) (D.shown dir.old) (D.shown dir.new) }
    ensures unopened { IfOk result (λ own. IsUnopened (D.shown dir.old).local own) }
    ensures cause { IfErr result (λ e. MakeCause D.observed draw [] e (D.shown dir.old) (D.shown dir.new)) }
    ensures begins { IfOk result (λ own. D.observed ≡ true → HasMadeFolder draw (D.shown dir.old) (D.shown dir.new)) }
    ensures brings { IfOk result (λ own. D.observed ≡ true → BringsToPrepare draw (D.shown dir.old) (D.shown dir.new)) }
    ensures by_other_process { IfErr result (λ e. D.observed ≡ true → WhereMakingPod (IsMaker draw) (MakesUnderImages draw) nothing_made (D.shown dir.old)
        (λ intent hs. EmbryoBusyElsewhere e (D.shown dir.old) (D.shown dir.new))) }
    ensures held { IfOk result (λ own. D.observed ≡ true → WhereMakingPod (IsMaker draw) (MakesUnderImages draw) nothing_made (D.shown dir.old)
        (λ intent hs. Knows (D.shown dir.new) (seen_making intent (own_held draw own (Some Mode.Exclusive) ∷ hs) (in_prepare draw [])))) }
    ensures left { IfErr result (λ e. D.observed ≡ true → WhereMakingPod (IsMaker draw) (MakesUnderImages draw) nothing_made (D.shown dir.old)
        (λ intent hs. HasMakerFolder draw intent hs (D.shown dir.new))) }
{
    match lock_area(alloc, dir, Area::Embryo, Mode::Shared) {
        Ok(gate) => {
            let result = make_and_take_out(alloc, dir, draw);
            unlock_area(dir, gate);
            result
        }
        Err(error) => Err(lock_refusal(error)),
    }
}
