// The age of a pod since a mark.
ghost use Rattle.std.specs.Prelude.{◌≡◌, ◌-◌, ◌+◌, ◌≤◌, ◌↔◌, ℕ, true, Ok, Some, None, length, drop, cond, nat_le, IsTrue, codes, IfOk, IfErr, IfSome};
ghost use Rattle.dir_model.specs.State.{stands};
ghost use Rattle.dir_trait.specs.DirCalls.{HeldBetween};
ghost use Rattle.dir_model.specs.Spots.{pod_spot};
ghost use Rattle.dir_trait.specs.Local.{IsActive};
ghost use Rattle.dir_trait.specs.Effects.{OnlyAsks, Given};
ghost use Rattle.pod_locks.specs.Holding.{KeepsReady};
ghost use Rattle.pod_locks.specs.Causes.{IsAbsentAt};
ghost use Rattle.pod_gc.specs.RemovalHolding.{MayRemove};
ghost use Rattle.pod_gc.specs.Requests.{counts_time, lists_marks};
ghost use Rattle.pod_gc.specs.Causes.{GcCause};
ghost use Rattle.pod_gc.specs.Ages.{moment_among, is_young, is_ripe, Showed};
ghost use Rattle.pod_gc.specs.Sweeping.{NotesMark};

use crate::gc_error::{GcError, listing_fault};
use dir_files::items_of;
use dir_trait::{Area, Dir, DirError, Item, PodId, Spot};
use marks::{later, moment_of};
use std::alloc::Global;

/// The times of a sweep, in seconds, by which its contract tells the ages of pods.
#[derive(Clone, Copy, Debug, PartialEq, Eq)]
pub struct Times {
    pub now: u64,
    /// How long an exited pod is kept in exited-garbage.
    pub grace: u64,
    /// How long a prepared pod waits to be run.
    pub expire: u64,
}

// A moment's age. It is 0 before the moment.
fn age(now: u64, moment: u64) -> u64
    ensures { result ≡ now - moment }
{
    now.saturating_sub(moment)
}

/// Whether the time since the moment hasn't come to this. It has where there is no moment.
pub(crate) fn is_young(now: u64, time: u64, moment: Option<u64>) -> bool
    ensures { result ≡ is_young now time moment }
{
    match moment {
        Some(moment) => age(now, moment) < time,
        None => false,
    }
}

/// Whether the time since the moment has come to this. It hasn't where there is no moment.
pub(crate) fn is_ripe(now: u64, time: u64, moment: Option<u64>) -> bool
    ensures { result ≡ is_ripe now time moment }
{
    match moment {
        Some(moment) => time <= age(now, moment),
        None => false,
    }
}

fn greatest(text: &[u8], items: &[Item]) -> Option<u64>
    ensures { result ≡ moment_among text.now items.now }
{
    let mut found = None;
    'items: for item in items {
        found = later(found, moment_of(text, item.name.as_str().as_bytes()));
    }
    found
}

/// Where the pod's folder stands there, the greatest moment of its marks that begin with the text, if it
/// has any: by one listing. None where no folder of the pod stands there.
pub(crate) fn marked_at<D: Dir>(
    alloc: Global,
    dir: &mut D,
    pod: PodId,
    area: Area,
    text: &[u8],
) -> Result<Option<Option<u64>>, GcError>
    requires active { IsActive (D.shown dir.old).local }
    requires marks { counts_time area ≡ true }
    ensures worked { OnlyAsks D.observed (lists_marks pod area) (D.shown dir.old) (D.shown dir.new) }
    ensures cause { IfErr result (λ e. GcCause D.observed e (D.shown dir.old) (D.shown dir.new)) }
    ensures never { IfErr result (λ e. e ≡ GcError.Stray → ⊥) }
    ensures shown { IfOk result (λ found. IfSome found (λ moment. D.observed ≡ true
        → Showed pod area text.now moment (D.shown dir.old).process (D.shown dir.old).trace (D.shown dir.new).trace)) }
    ensures there { IfOk result (λ found. IfSome found (λ moment. D.observed ≡ true
        → HeldBetween (D.shown dir.old) (D.shown dir.new) (λ s. stands s.namespace (pod_spot pod area) ≡ true))) }
    ensures absent { result ≡ Ok None → D.observed ≡ true → HeldBetween (D.shown dir.old) (D.shown dir.new) (IsAbsentAt pod area) }
    ensures ready { D.observed ≡ true → (now : ℕ) → Given (MayRemove now) (D.shown dir.old) (λ s. KeepsReady s (D.shown dir.new)) }
    ensures noted { IfOk result (λ found. IfSome found (λ moment. D.observed ≡ true → (now : ℕ) → text.now ≡ codes "created-"
        → Given (MayRemove now) (D.shown dir.old) (λ s. NotesMark pod moment s (D.shown dir.new)))) }
{
    match items_of(alloc, dir, Spot::of_pod(pod, area), "") {
        Ok(items) => Ok(Some(greatest(text, items.as_slice()))),
        Err(DirError::Missing) => Ok(None),
        Err(error) => Err(listing_fault(error)),
    }
}
