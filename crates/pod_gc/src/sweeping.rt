// The sweep of dead pods.
ghost use Rattle.std.specs.Prelude.{◌≡◌, true, IfOk, IfErr, IsErrOf};
ghost use Rattle.dir_trait.specs.Local.{IsActive};
ghost use Rattle.dir_trait.specs.Effects.{OnlyAsks, Given};
ghost use Rattle.impossible_replies.specs.Replies.{AppWroteOn};
ghost use Rattle.lifecycle.specs.Executions.{IsConforming};
ghost use Rattle.pod_locks.specs.Holding.{KeepsReady};
ghost use Rattle.pod_gc.specs.Requests.{sweeps};
ghost use Rattle.pod_gc.specs.Causes.{GcCause, GcStrayByApp};
ghost use Rattle.pod_gc.specs.Sweeping.{MaySweepAll};
ghost use Rattle.pod_gc.specs.Told.{places, AddsSwept, IsSweptBetween};
ghost use Rattle.pod_gc.specs.Ended.{EndsSweepBetween};

use crate::ages::Times;
use crate::gc_error::GcError;
use crate::line::GcLine;
use crate::passes::pass;
use dir_trait::{Area, Dir};
use std::alloc::Global;

const PLACES: [Area; 6] = [
    Area::Embryo,
    Area::Prepare,
    Area::Prepared,
    Area::Run,
    Area::ExitedGarbage,
    Area::Garbage,
];

// The six passes, one after the other.
fn pass_each<D: Dir>(
    alloc: Global,
    dir: &mut D,
    times: Times,
    lines: &mut Vec<GcLine>,
) -> Result<(), GcError>
    requires active { IsActive (D.shown dir.old).local }
    ensures worked { OnlyAsks D.observed (sweeps times.now) (D.shown dir.old) (D.shown dir.new) }
    ensures cause { IfErr result (λ e. GcCause D.observed e (D.shown dir.old) (D.shown dir.new)) }
    ensures lawful { IfErr result (λ e. GcStrayByApp D.observed e (MaySweepAll times.now times.expire) (D.shown dir.old) (D.shown dir.new)) }
    ensures swept { IfOk result (λ done. D.observed ≡ true → AddsSwept times places (D.shown dir.old) (D.shown dir.new) lines.old.items lines.new.items) }
    ensures ended { IfErr result (λ e. D.observed ≡ true → EndsSweepBetween times (D.shown dir.old) (D.shown dir.new)) }
    ensures ready { D.observed ≡ true → Given (MaySweepAll times.now times.expire) (D.shown dir.old) (λ s. KeepsReady s (D.shown dir.new)) }
{
    'places: for place in PLACES {
        pass(alloc, dir, place, times, lines)?;
    }
    Ok(())
}

/// Sweeps dead pods, by one pass over each place in lifecycle order, and says what was done with each pod
/// that a pass's listing showed. Embryos, under that area's lock, and aborted prepares go to garbage, and
/// so does a prepared pod whose age since it was created is at least `expire`. An exited pod is marked with
/// the moment and goes to exited-garbage. There it is deleted where its age since its latest mark is at
/// least `grace`, or where it has no mark; in garbage each is deleted. A pod that another process holds is
/// let be.
///
/// `Stray` where the directory's answers contradict each other or what a lock keeps: while every process
/// keeps the local rules, only where a program that outlived its pod writes on; `DirFault` where it failed;
/// `NoMemory` where memory ran out. Then each pod is whole or in a garbage place. No lock is held afterwards.
pub fn gc<D: Dir>(
    alloc: Global,
    dir: &mut D,
    now: u64,
    grace: u64,
    expire: u64,
) -> Result<Vec<GcLine>, GcError>
    requires active { IsActive (D.shown dir.old).local }
    ensures worked { OnlyAsks D.observed (sweeps now) (D.shown dir.old) (D.shown dir.new) }
    ensures cause { IfErr result (λ e. GcCause D.observed e (D.shown dir.old) (D.shown dir.new)) }
    ensures lawful { IsErrOf result GcError.Stray → D.observed ≡ true → Given (MaySweepAll now expire) (D.shown dir.old) (λ s. IsConforming (D.shown dir.new).trace
        → AppWroteOn (D.shown dir.old).process (D.shown dir.old).trace (D.shown dir.new).trace) }
    ensures swept { IfOk result (λ lines. D.observed ≡ true
        → IsSweptBetween (record { now = now; grace = grace; expire = expire }) (D.shown dir.old) (D.shown dir.new) lines.items) }
    ensures ended { IfErr result (λ e. D.observed ≡ true
        → EndsSweepBetween (record { now = now; grace = grace; expire = expire }) (D.shown dir.old) (D.shown dir.new)) }
    ensures ready { D.observed ≡ true → Given (MaySweepAll now expire) (D.shown dir.old) (λ s. KeepsReady s (D.shown dir.new)) }
{
    let times = Times { now, grace, expire };
    let mut lines = Vec::new(alloc);
    pass_each(alloc, dir, times, &mut lines)?;
    Ok(lines)
}
