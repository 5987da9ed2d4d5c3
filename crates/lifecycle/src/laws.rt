// The laws of conforming executions, each the contract of a function.
ghost use Rattle.std.specs.Prelude.{◌≡◌, ℕ, Some, List, ◌++◌};
ghost use Rattle.dir_model.specs.declared.area.Phase.TheVariants.{AbortedPrepare};
ghost use Rattle.dir_model.specs.declared.event.Event.{Event};
ghost use Rattle.dir_model.specs.Pods.{pod_text};
ghost use Rattle.dir_model.specs.Trace.{state_after};
ghost use Rattle.dir_model.specs.Between.{StaysBetween};
ghost use Rattle.lifecycle.specs.PodMachine.{pod_phase};
ghost use Rattle.lifecycle.specs.Executions.{IsConforming};
ghost use Rattle.lifecycle.specs.Ownership.{TransitionsAreEnabled, NamesOneFolder, GoesForward, IsRemovedByItsOwner, SweepsAreAsked};
ghost use Rattle.lifecycle.specs.Readings.{LocksTellPhases, MissesTellGone};

use dir_model::{History, PodId};

/// A beginning of a conforming execution is one. So each law here, and all that `replay` tells, holds
/// of each beginning as well.
pub fn beginnings(history: &History)
    ensures { IsConforming history.now.items → (before later : List Event)
        → history.now.items ≡ before ++ later → IsConforming before }
{
    let _events = history.as_slice();
}

/// An event that is a transition of a pod is one that the pod's state has; a prepared pod is swept
/// only where the process asks for it.
pub fn transitions(history: &History)
    ensures { IsConforming history.now.items → (name : List ℕ) → TransitionsAreEnabled name history.now.items }
{
    let _events = history.as_slice();
}

/// A name names at most one folder at the stages of a pod's life. The pod goes through them forward,
/// and a folder that is found at one of them twice stood there all the time between.
pub fn folders(history: &History)
    ensures one { IsConforming history.now.items → NamesOneFolder (state_after history.now.items).namespace }
    ensures forward { IsConforming history.now.items → GoesForward history.now.items }
    ensures stays { IsConforming history.now.items → StaysBetween history.now.items }
{
    let _events = history.as_slice();
}

/// What is removed of a pod, its owner removes, who deletes the pod. A prepared pod that is moved to
/// garbage is asked for.
pub fn removals(history: &History)
    ensures owner { IsConforming history.now.items → (name : List ℕ) → IsRemovedByItsOwner name history.now.items }
    ensures asked { IsConforming history.now.items → SweepsAreAsked history.now.items }
{
    let _events = history.as_slice();
}

/// What a process that looks for a pod finds is the pod's phase at one of its own steps: where the pod
/// stands and how its lock is held then; and that the pod doesn't exist, where it was missed at all six
/// stages in their order.
pub fn readings(history: &History)
    ensures phase { IsConforming history.now.items → LocksTellPhases history.now.items }
    ensures gone { IsConforming history.now.items → MissesTellGone history.now.items }
{
    let _events = history.as_slice();
}

/// Some execution conforms: this pod was made and moved to prepare, and its maker was killed.
pub fn some_execution(pod: PodId)
    ensures { (trace : List Event) × IsConforming trace × (pod_phase (pod_text pod.bytes) trace ≡ Some AbortedPrepare) }
{
    let _pod = pod;
}
