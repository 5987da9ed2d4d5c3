// The read of a phase: the six areas in lifecycle order, each place looked at twice.
ghost use Rattle.std.specs.Prelude.{◌≡◌, ◌+◌, ◌≤◌, true, false, IfOk, IfErr, IsErrOf, Ok, Some, None, is_some, IfSome};
ghost use Rattle.dir_trait.specs.Causes.{Rose};
ghost use Rattle.dir_trait.specs.Knowledge.{OnlyLooks};
ghost use Rattle.dir_trait.specs.DirCalls.{ExtendsBy, HeldBetween};
ghost use Rattle.dir_trait.specs.Pods.{pod_text};
ghost use Rattle.dir_trait.specs.State.{spot_eq, stands};
ghost use Rattle.dir_trait.specs.Areas.{rank, phase_in};
ghost use Rattle.dir_trait.specs.Between.{StaysBetween};
ghost use Rattle.dir_trait.specs.Replies.{is_look_at};
ghost use Rattle.dir_trait.specs.Local.{IsActive, has_own_open};
ghost use Rattle.phase_read.specs.Exact.{IsExactly};
ghost use Rattle.phase_read.specs.Faults.{IsLookFault};
ghost use Rattle.phase_read.specs.Often.{OpensOnce, ReadsAtMost};
ghost use Rattle.phase_read.specs.Read.{IsPhaseRead, HasPhase, FoundBetween, calls_of_miss, is_pod_spot};

use crate::found::{Found, LookError};
use crate::probe::{ask, look};
use dir_trait::{Area, Dir, Phase, PodId, Spot, phase_of};
use std::alloc::Global;

// The phase in an area of a pod's life.
fn stage_phase(area: Area, owned: bool) -> Phase
    requires { rank area ≤ 5 }
    ensures { phase_in area owned ≡ Some result }
{
    match phase_of(area, owned) {
        Some(phase) => phase,
        None => unreachable!(),
    }
}

// Reads one location. In embryo and in prepared the lock says nothing, so one look decides; in the
// other areas the folder is looked for again after the lock was asked for, since it may have moved
// on before.
fn read_at<D: Dir>(alloc: Global, dir: &mut D, spot: Spot) -> Result<Option<Phase>, LookError>
    requires active { IsActive (D.shown dir.old).local }
    requires alone { has_own_open (D.shown dir.old).local spot.name ≡ false }
    requires area { rank spot.area ≤ 5 }
    ensures counted { (D.shown dir.new).calls ≤ (D.shown dir.old).calls + 5 }
    ensures counted_missing { result ≡ Ok None → (D.shown dir.new).calls ≤ (D.shown dir.old).calls + calls_of_miss spot.area }
    ensures same { (D.shown dir.new).process ≡ (D.shown dir.old).process }
    ensures faults { (D.shown dir.old).faults ≤ (D.shown dir.new).faults }
    ensures cause { IsErrOf result LookError.DirFault → Rose (D.shown dir.old).faults (D.shown dir.new).faults }
    ensures kind { IfErr result IsLookFault }
    ensures local { (D.shown dir.new).local ≡ (D.shown dir.old).local }
    ensures known { D.observed ≡ true → OnlyLooks (D.shown dir.old) (D.shown dir.new) }
    ensures extends { D.observed ≡ true → ExtendsBy (is_look_at (spot_eq spot)) (D.shown dir.old) (D.shown dir.new) }
    ensures once { spot.area ≡ Area.Embryo → OpensOnce D.observed spot (D.shown dir.old) (D.shown dir.new) }
    ensures there { IfOk result (λ found. D.observed ≡ true
        → HeldBetween (D.shown dir.old) (D.shown dir.new) (λ s. stands s.namespace spot ≡ is_some found)) }
    ensures found { IfOk result (λ found. IfSome found (λ phase. D.observed ≡ true
        → FoundBetween (D.shown dir.old) (D.shown dir.new) spot phase)) }
    ensures phase { IfOk result (λ found. IfSome found (λ phase. D.observed ≡ true → StaysBetween (D.shown dir.new).trace
        → HeldBetween (D.shown dir.old) (D.shown dir.new) (HasPhase spot phase))) }
{
    let spot = &spot;
    match spot.area {
        Area::Embryo | Area::Prepared => {
            let there = look(alloc, dir, *spot)?;
            Ok(if there {
                Some(stage_phase(spot.area, false))
            } else {
                None
            })
        }
        _ => match ask(alloc, dir, *spot)? {
            None => Ok(None),
            Some(owned) => {
                let there = look(alloc, dir, *spot)?;
                Ok(if there {
                    Some(stage_phase(spot.area, owned))
                } else {
                    None
                })
            }
        },
    }
}

/// Reads a pod's phase, area by area in lifecycle order, by at most 19 calls on the directory,
/// whatever the directory answers. No handle of this process is open on the pod's lock before, and each
/// handle that it opened is closed again. Where every process keeps the local rules, the pod stood in
/// the area in that phase, or didn't exist, at one step of this read. Refused by `DirFault`, only where
/// the directory failed, or by `NoMemory`.
pub fn read_phase<D: Dir>(alloc: Global, dir: &mut D, pod: PodId) -> Result<Found, LookError>
    requires active { IsActive (D.shown dir.old).local }
    requires alone { has_own_open (D.shown dir.old).local (pod_text pod.bytes) ≡ false }
    ensures counted { (D.shown dir.new).calls ≤ (D.shown dir.old).calls + 19 }
    ensures same { (D.shown dir.new).process ≡ (D.shown dir.old).process }
    ensures faults { (D.shown dir.old).faults ≤ (D.shown dir.new).faults }
    ensures cause { IsErrOf result LookError.DirFault → Rose (D.shown dir.old).faults (D.shown dir.new).faults }
    ensures kind { IfErr result IsLookFault }
    ensures local { (D.shown dir.new).local ≡ (D.shown dir.old).local }
    ensures known { D.observed ≡ true → OnlyLooks (D.shown dir.old) (D.shown dir.new) }
    ensures extends { D.observed ≡ true → ExtendsBy (is_look_at (is_pod_spot pod)) (D.shown dir.old) (D.shown dir.new) }
    ensures reads { ReadsAtMost 1 D.observed pod (D.shown dir.old) (D.shown dir.new) }
    ensures read { IfOk result (λ found. D.observed ≡ true → IsPhaseRead (D.shown dir.old) (D.shown dir.new) pod found) }
    ensures exact { IfOk result (λ found. D.observed ≡ true → IsExactly (D.shown dir.old) (D.shown dir.new) pod found) }
{
    let name = pod.name();
    let mut area = Area::Embryo;
    'places: loop {
        if let Some(phase) = read_at(alloc, dir, Spot { area, name })? {
            return Ok(Found::At(phase, area));
        }
        area = match area.next() {
            Some(next) => next,
            None => return Ok(Found::Gone),
        };
    }
}
