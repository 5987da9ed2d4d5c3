// The pod machine of a history.
ghost use Rattle.std.specs.Prelude.{◌≡◌, IfOk};
ghost use Rattle.dir_model.specs.Calls.{IsRun};
ghost use Rattle.lifecycle.specs.Executions.{IsConforming};
ghost use Rattle.lifecycle.specs.Watch.{made_pod_entries, TellsStates, ShowsPods};
ghost use Rattle.impossible_replies.specs.Replies.{NoneIsImpossible};

use dir_model::{History, NoMemory};
use lifecycle::{PodMachine, pods_after};
use std::alloc::Global;

/// The states of the pods after a history: those that the machine gives them. Where the execution
/// conforms, the data folder shows them, and no reply came that no rule-keeping process brings about.
/// Refused only where memory ran out.
pub fn replay(alloc: Global, history: &History) -> Result<PodMachine, NoMemory>
    ensures machine { IfOk result (λ machine. machine ≡ made_pod_entries history.now.items history.now.items) }
    ensures states { IsRun history.now.items → IfOk result (λ machine. TellsStates machine history.now.items) }
    ensures shown { IsConforming history.now.items → IfOk result (λ machine. ShowsPods machine history.now.items) }
    ensures replies { IsConforming history.now.items → NoneIsImpossible history.now.items }
{
    pods_after(alloc, history)
}
