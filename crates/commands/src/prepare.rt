// The command `prepare`.
ghost use Rattle.std.specs.Prelude.{◌≡◌, true, IfOk, IfErr, IsErrOf};
ghost use Rattle.dir_model.specs.Causes.{Rose};
ghost use Rattle.dir_model.specs.declared.area.Area.{Area};
ghost use Rattle.dir_model.specs.declared.intent.Intent.{Intent};
ghost use Rattle.dir_trait.specs.Local.{IsActive};
ghost use Rattle.dir_trait.specs.Effects.{OnlyAsks};
ghost use Rattle.pod_build.specs.Preparations.{Began, MakesFaithfully};
ghost use Rattle.command_outcomes.specs.Conforming.{StaysConforming};
ghost use Rattle.commands.specs.PrepareRefusals.{prepare_refusal};
ghost use Rattle.commands.specs.Prepare.{pod_line, syncs, prepares_pod, prepared_sync_refusal, SyncSays, PrepareSays};

use crate::prepare_refusals::build_refusal;
use crate::wanted::Wanted;
use ac_types::NoMemory;
use command_outcomes::{Output, Refusal};
use dir_trait::{Area, Dir, DirError, Draw, PodId};
use pod_build::prepare;
use std::alloc::Global;

/// The line that names the pod. Refused only where memory ran out.
pub fn pod_line(alloc: Global, pod: PodId) -> Result<Output, NoMemory>
    ensures { IfOk result (λ line. line ≡ pod_line pod) }
{
    let name = pod.name();
    let mut line = Output::of(alloc, name.as_str())?;
    line.push("\n")?;
    Ok(line)
}

fn sync_refusal(error: DirError) -> Refusal
    ensures { result ≡ prepared_sync_refusal error }
{
    match error {
        DirError::Failed => Refusal::DirFault,
        _ => Refusal::NoMemory,
    }
}

// The area of a pod that is prepared is synced before the pod is told: a name that was printed outlasts a stop of
// the machine.
fn sync_saying<D: Dir>(alloc: Global, line: Output, dir: &mut D) -> Result<Output, Refusal>
    requires active { IsActive (D.shown dir.old).local }
    ensures worked { OnlyAsks D.observed (syncs Area.Prepared) (D.shown dir.old) (D.shown dir.new) }
    ensures cause { IsErrOf result Refusal.DirFault → Rose (D.shown dir.old).faults (D.shown dir.new).faults }
    ensures says { SyncSays line D.observed (D.shown dir.old) (D.shown dir.new) result }
{
    match dir.sync_area(alloc, Area::Prepared) {
        Ok(()) => Ok(line),
        Err(error) => Err(sync_refusal(error)),
    }
}

// The preparing, of which this line is printed.
fn prepare_saying<D: Dir>(
    alloc: Global,
    line: Output,
    wanted: &Wanted,
    now: u64,
    draw: &Draw,
    dir: &mut D,
) -> Result<Output, Refusal>
    requires active { IsActive (D.shown dir.old).local }
    requires line { line ≡ pod_line draw.now.uuid }
    ensures worked { OnlyAsks D.observed (prepares_pod draw.now.uuid) (D.shown dir.old) (D.shown dir.new) }
    ensures cause { IsErrOf result Refusal.DirFault → Rose (D.shown dir.old).faults (D.shown dir.new).faults }
    ensures refusals { IfErr result (λ r. prepare_refusal r ≡ true) }
    ensures known { D.observed ≡ true → (intent : Intent) → Began Area.Prepared draw.now now intent → StaysConforming intent (D.shown dir.old) (D.shown dir.new) }
    ensures makers { D.observed ≡ true → MakesFaithfully Area.Prepared draw.now now (D.shown dir.old) (D.shown dir.new) }
    ensures says { PrepareSays D.observed wanted.now now draw.now (D.shown dir.old) (D.shown dir.new) result }
{
    match prepare(
        alloc,
        dir,
        wanted.refs(),
        wanted.options(),
        draw,
        now,
        false,
    ) {
        Ok(_) => sync_saying(alloc, line, dir),
        Err(error) => Err(build_refusal(alloc, wanted.words(), error)),
    }
}

/// The line that `prepare` prints: the name of a pod of the best images of the store for what is wanted, with the
/// volumes and mounts that are asked for, which is then in prepared, and outlasts a stop of the machine. `now` is the moment of its making; its name and its token are drawn.
///
/// `Busy` where another process holds the lock of images or of embryo exclusively. `NoImage` with the first word that
/// no image matches; `NoDependency`, `Cycle` and `Limit` at the first fault in an image's dependencies. `BadManifest`
/// with the name of an image without an app, of an app that runs no program, of one that comes a second time, or of the
/// volume of a mount that no volume has.
/// `Limit` where there are too many apps, or a root is too large. `Damaged` where a file of the store is missing, has no
/// reading or differs from its image's listing. `Taken` where a folder with the drawn name stands in embryo. `Stray`
/// where the directory's answers contradict what this process made; `DirFault` where it failed. With `DirFault` and
/// `NoMemory` the pod may be prepared all the same: then the area wasn't synced, or no memory was left to say why.
pub fn prepare_pod<D: Dir>(
    alloc: Global,
    wanted: &Wanted,
    now: u64,
    draw: &Draw,
    dir: &mut D,
) -> Result<Output, Refusal>
    requires active { IsActive (D.shown dir.old).local }
    ensures worked { OnlyAsks D.observed (prepares_pod draw.now.uuid) (D.shown dir.old) (D.shown dir.new) }
    ensures cause { IsErrOf result Refusal.DirFault → Rose (D.shown dir.old).faults (D.shown dir.new).faults }
    ensures refusals { IfErr result (λ r. prepare_refusal r ≡ true) }
    ensures known { D.observed ≡ true → (intent : Intent) → Began Area.Prepared draw.now now intent → StaysConforming intent (D.shown dir.old) (D.shown dir.new) }
    ensures makers { D.observed ≡ true → MakesFaithfully Area.Prepared draw.now now (D.shown dir.old) (D.shown dir.new) }
    ensures says { PrepareSays D.observed wanted.now now draw.now (D.shown dir.old) (D.shown dir.new) result }
{
    // Made first: a pod that is prepared can't be told where there is no memory for its line.
    match pod_line(alloc, draw.uuid) {
        Ok(line) => prepare_saying(alloc, line, wanted, now, draw, dir),
        Err(_) => Err(Refusal::NoMemory),
    }
}
