// What a sweep says of a pod.
ghost use Rattle.std.specs.Prelude.{◌≡◌};
ghost use Rattle.pod_gc.specs.Causes.{deed_of};

use crate::gc_error::{GcError, step_fault};
use dir_trait::{Area, Phase, PodId, Which};
use pod_locks::Setback;

/// What a sweep did with a pod, or why it let it be.
#[derive(Clone, Copy, Debug, PartialEq, Eq)]
pub enum Deed {
    /// It moved the pod to this area.
    Moved(Area),
    /// It deleted the pod.
    Deleted,
    /// The pod has this phase, and the phase or its age doesn't allow more.
    Kept(Phase),
    /// Another process holds this lock of the pod.
    Busy(Which),
    /// Another process holds the lock of embryo: nothing there was looked at.
    BusyGate,
    /// The pod wasn't there any more, or in prepared its manifest wasn't.
    Left,
}

/// One line of a sweep: the area of the pass, the pod, and what was done.
#[derive(Clone, Copy, Debug, PartialEq, Eq)]
pub struct GcLine {
    pub place: Area,
    /// None where the lock of embryo was busy.
    pub pod: Option<PodId>,
    pub deed: Deed,
}

/// The deed that a step at a pod comes to, where it is done or set back.
pub(crate) fn deed_of(answer: Result<(), Setback>, done: Deed) -> Result<Deed, GcError>
    ensures { result ≡ deed_of answer done }
{
    match answer {
        Ok(()) => Ok(done),
        Err(Setback::Missing) => Ok(Deed::Left),
        Err(Setback::NoManifest) => Ok(Deed::Left),
        Err(Setback::Busy(which)) => Ok(Deed::Busy(which)),
        Err(stop) => Err(step_fault(stop)),
    }
}
