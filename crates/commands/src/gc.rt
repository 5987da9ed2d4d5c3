// The command `gc`.
ghost use Rattle.std.specs.Prelude.{◌≡◌, ◌⊎◌, ◌++◌, true, Ok, Err, IfOk, IfErr, IsErrOf, OnOk};
ghost use Rattle.dir_model.specs.Causes.{Rose};
ghost use Rattle.dir_trait.specs.Local.{IsActive};
ghost use Rattle.dir_trait.specs.Effects.{OnlyAsks, Given};
ghost use Rattle.pod_locks.specs.Holding.{KeepsReady};
ghost use Rattle.pod_gc.specs.Requests.{sweeps};
ghost use Rattle.pod_gc.specs.Sweeping.{MaySweepAll};
ghost use Rattle.commands.specs.Gc.{times_of, subject_text, deed_text, gc_line_text, lines_text, sweep_refusal, gc_refusal, GcSays};

use ac_types::NoMemory;
use command_outcomes::{Output, Refusal, area_name, lock_name};
use dir_trait::{Area, Dir, PodId};
use pod_gc::{Deed, GcError, GcLine, gc};
use std::alloc::Global;

fn push_subject(text: &mut Output, pod: Option<PodId>, place: Area) -> Result<(), NoMemory>
    ensures { OnOk result (text.new ≡ text.old ++ subject_text pod place) }
{
    match pod {
        Some(pod) => {
            let name = pod.name();
            text.push(name.as_str())?;
        }
        None => text.push(area_name(place))?,
    }
    Ok(())
}

fn push_deed(text: &mut Output, place: Area, deed: Deed) -> Result<(), NoMemory>
    ensures { OnOk result (text.new ≡ text.old ++ deed_text place deed) }
{
    match deed {
        Deed::Moved(to) => {
            text.push(" moved ")?;
            text.push(area_name(to))?;
        }
        Deed::Deleted => text.push(" deleted")?,
        Deed::Kept(phase) => {
            text.push(" kept ")?;
            text.push(phase.name())?;
        }
        Deed::Busy(which) => {
            text.push(" busy ")?;
            text.push(lock_name(which))?;
        }
        Deed::BusyGate => text.push(" busy gate")?,
        Deed::Left => {
            text.push(" left ")?;
            text.push(area_name(place))?;
        }
    }
    Ok(())
}

fn add_line(text: &mut Output, line: &GcLine) -> Result<(), NoMemory>
    ensures { OnOk result (text.new ≡ text.old ++ gc_line_text line.now) }
{
    push_subject(text, line.pod, line.place)?;
    push_deed(text, line.place, line.deed)?;
    text.push("\n")?;
    Ok(())
}

fn lines_text(alloc: Global, lines: &[GcLine]) -> Result<Output, NoMemory>
    ensures { IfOk result (λ text. text ≡ lines_text lines.now) }
{
    let mut text = Output::new(alloc);
    'lines: for line in lines {
        add_line(&mut text, line)?;
    }
    Ok(text)
}

fn printed_lines(alloc: Global, lines: &[GcLine]) -> Result<Output, Refusal>
    ensures { (result ≡ Ok (lines_text lines.now)) ⊎ (result ≡ Err Refusal.NoMemory) }
{
    match lines_text(alloc, lines) {
        Ok(text) => Ok(text),
        Err(_) => Err(Refusal::NoMemory),
    }
}

fn sweep_refusal(error: GcError) -> Refusal
    ensures { result ≡ sweep_refusal error }
{
    match error {
        GcError::DirFault => Refusal::DirFault,
        GcError::Stray => Refusal::Stray,
        GcError::NoMemory => Refusal::NoMemory,
    }
}

/// The lines that `gc` prints: by six passes over the places of pods in lifecycle order, one line of each pod that a
/// pass's listing showed, with what was done. Embryos and aborted prepares go to garbage, and so does a prepared pod
/// whose age since it was created is at least `expire` seconds. An exited pod is marked with the moment `now` and goes
/// to exited-garbage, where it is deleted once its age since its latest mark is at least `grace` seconds; in garbage
/// each is deleted. What another process holds is let be.
///
/// `Stray` where the directory's answers contradict each other or what a lock keeps, as where a program that outlived
/// its pod still writes there; `DirFault` where it failed. Then each pod is whole or in a garbage place, and what was
/// done until then isn't told.
pub fn gc_pods<D: Dir>(
    alloc: Global,
    now: u64,
    grace: u64,
    expire: u64,
    dir: &mut D,
) -> Result<Output, Refusal>
    requires active { IsActive (D.shown dir.old).local }
    ensures worked { OnlyAsks D.observed (sweeps now) (D.shown dir.old) (D.shown dir.new) }
    ensures cause { IsErrOf result Refusal.DirFault → Rose (D.shown dir.old).faults (D.shown dir.new).faults }
    ensures refusals { IfErr result (λ r. gc_refusal r ≡ true) }
    ensures ready { D.observed ≡ true → Given (MaySweepAll now expire) (D.shown dir.old) (λ s. KeepsReady s (D.shown dir.new)) }
    ensures says { GcSays D.observed (times_of now grace expire) (D.shown dir.old) (D.shown dir.new) result }
{
    match gc(alloc, dir, now, grace, expire) {
        Ok(lines) => printed_lines(alloc, lines.as_slice()),
        Err(error) => Err(sweep_refusal(error)),
    }
}
