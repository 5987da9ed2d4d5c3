// The pods that there are, by listings of the six areas.
ghost use Rattle.std.specs.Prelude.{◌≡◌, ◌≤◌, ◌++◌, true, IfOk, IfErr, IsErrOf};
ghost use Rattle.std.specs.Ordering.{nat_cmp};
ghost use Rattle.std.specs.Cmp.Lexicographic.{slice_cmp};
ghost use Rattle.std.specs.List.Sorted.{IsStrictlySortedBy};
ghost use Rattle.dir_model.specs.Areas.{is_stage, rank};
ghost use Rattle.dir_trait.specs.Causes.{Rose};
ghost use Rattle.dir_trait.specs.Local.{IsActive};
ghost use Rattle.lifecycle.specs.Executions.{IsConforming};
ghost use Rattle.phase_read.specs.Faults.{IsLookFault};
ghost use Rattle.phase_read.specs.Read.{stages};
ghost use Rattle.pod_lookup.specs.Looks.{OnlyLooksFor, lists_stages};
ghost use Rattle.pod_lookup.specs.AreaListings.{AreListedBetween, AddsListedBetween};
ghost use Rattle.pod_lookup.specs.Pods.{pod_names, FindsPodsBetween, FindsStanding, MissesGone};

use crate::sorted::pods_among;
use dir_files::names_of;
use dir_trait::{Area, Dir, Name, PodId};
use phase_read::{LookError, look_error};
use std::alloc::Global;

// Lists one area, and adds the names.
fn list_next<D: Dir>(
    alloc: Global,
    dir: &mut D,
    area: Area,
    names: &mut Vec<Name>,
) -> Result<(), LookError>
    requires active { IsActive (D.shown dir.old).local }
    requires stage { rank area ≤ 5 }
    ensures only { OnlyLooksFor D.observed lists_stages (D.shown dir.old) (D.shown dir.new) }
    ensures cause { IsErrOf result LookError.DirFault → Rose (D.shown dir.old).faults (D.shown dir.new).faults }
    ensures kind { IfErr result IsLookFault }
    ensures listed { IfOk result (λ done. D.observed ≡ true → AddsListedBetween area (D.shown dir.old) (D.shown dir.new) names.old.items names.new.items) }
{
    match names_of(alloc, dir, area) {
        Ok(shown) => match names.extend_from_slice(shown.as_slice()) {
            Ok(()) => Ok(()),
            Err(_) => Err(LookError::NoMemory),
        },
        Err(error) => Err(look_error(error)),
    }
}

// Lists the six areas, in lifecycle order.
fn list_each<D: Dir>(alloc: Global, dir: &mut D) -> Result<Vec<Name>, LookError>
    requires active { IsActive (D.shown dir.old).local }
    ensures only { OnlyLooksFor D.observed lists_stages (D.shown dir.old) (D.shown dir.new) }
    ensures cause { IsErrOf result LookError.DirFault → Rose (D.shown dir.old).faults (D.shown dir.new).faults }
    ensures kind { IfErr result IsLookFault }
    ensures listed { IfOk result (λ names. D.observed ≡ true → AreListedBetween stages (D.shown dir.old) (D.shown dir.new) names.items) }
{
    let mut names = Vec::new(alloc);
    let mut area = Area::Embryo;
    'areas: loop {
        list_next(alloc, dir, area, &mut names)?;
        area = match area.next() {
            Some(next) => next,
            None => return Ok(names),
        };
    }
}

/// The pods that listings of the six areas showed, which were made in lifecycle order: each once, and
/// their uuids rise. Where every process keeps the local rules, a pod that isn't among them didn't exist
/// at an own step; and where no folder comes or goes meanwhile they are the pods that stood before.
/// `DirFault` where the directory failed, `NoMemory` where memory ran out.
pub fn listed_pods<D: Dir>(alloc: Global, dir: &mut D) -> Result<Vec<PodId>, LookError>
    requires active { IsActive (D.shown dir.old).local }
    ensures only { OnlyLooksFor D.observed lists_stages (D.shown dir.old) (D.shown dir.new) }
    ensures cause { IsErrOf result LookError.DirFault → Rose (D.shown dir.old).faults (D.shown dir.new).faults }
    ensures kind { IfErr result IsLookFault }
    ensures rise { IfOk result (λ pods. IsStrictlySortedBy (slice_cmp nat_cmp) (pod_names pods.items)) }
    ensures found { IfOk result (λ pods. D.observed ≡ true → FindsPodsBetween (D.shown dir.old) (D.shown dir.new) pods.items) }
    ensures standing { IfOk result (λ pods. D.observed ≡ true → FindsStanding (D.shown dir.old) (D.shown dir.new) pods.items) }
    ensures gone { IfOk result (λ pods. D.observed ≡ true → IsConforming (D.shown dir.new).trace
        → MissesGone (D.shown dir.old) (D.shown dir.new) pods.items) }
{
    let names = list_each(alloc, dir)?;
    pods_among(alloc, &names)
}
