// The pods of a trace.
ghost use Rattle.std.specs.Prelude.{◌≡◌, IfOk};
ghost use Rattle.dir_model.specs.Pods.{pod_text};
ghost use Rattle.dir_model.specs.Calls.{IsRun};
ghost use Rattle.lifecycle.specs.PodMachine.{owner_of, phase_of_state};
ghost use Rattle.lifecycle.specs.Executions.{IsConforming};
ghost use Rattle.lifecycle.specs.Watch.{pod_made_by, made_pod_entries, state_in, TellsStates, ShowsPods};

use crate::machine::PodState;
use crate::one_pod::replay_pod;
use crate::place::is_stage;
use dir_model::{Event, History, Name, NoMemory, Phase, PodId, Reply, Request};
use std::alloc::Global;
use std::marker::Model;

/// A pod and its state.
#[derive(Clone, Copy, PartialEq, Eq)]
pub struct PodEntry {
    pub name: Name,
    pub state: PodState,
}

/// The states of all pods after a trace. Contracts see the pods that were made, with their states.
#[derive(Drop)]
pub struct PodMachine {
    pods: Vec<PodEntry>,
}

impl Model for PodMachine {
    ghost use Rattle.std.specs.Prelude.{List};
    ghost use Rattle.lifecycle.specs.declared.pods.PodEntry.{PodEntry};

    ghost Value = { List PodEntry };

    ghost view = { λ m. m.pods.items };
}

// The name of the pod that the event made, if it made one.
fn made_by(event: &Event) -> Option<Name>
    ensures { result ≡ pod_made_by event.now.request event.now.reply }
{
    match (&event.request, &event.reply) {
        (Request::MakeFolder(spot), Reply::Done) => {
            if is_stage(spot.area) {
                Some(spot.name)
            } else {
                None
            }
        }
        _ => None,
    }
}

fn entries(alloc: Global, events: &[Event]) -> Result<Vec<PodEntry>, NoMemory>
    ensures { IfOk result (λ pods. pods.items ≡ made_pod_entries events.now events.now) }
{
    let mut pods: Vec<PodEntry> = Vec::new(alloc);
    'events: for event in events {
        if let Some(name) = made_by(event) {
            let state = replay_pod(alloc, events, &name)?;
            pods.push(PodEntry { name, state })?;
        }
    }
    Ok(pods)
}

/// The states of the pods after a trace: those that the machine gives them and, where the execution
/// conforms, what the data folder shows of them. Refused only where memory ran out.
pub fn pods_after(alloc: Global, history: &History) -> Result<PodMachine, NoMemory>
    ensures machine { IfOk result (λ machine. machine ≡ made_pod_entries history.now.items history.now.items) }
    ensures states { IsRun history.now.items → IfOk result (λ machine. TellsStates machine history.now.items) }
    ensures shown { IsConforming history.now.items → IfOk result (λ machine. ShowsPods machine history.now.items) }
{
    let pods = entries(alloc, history.as_slice())?;
    Ok(PodMachine { pods })
}

fn state_among(pods: &[PodEntry], name: &Name) -> PodState
    ensures { result ≡ state_in name.now pods.now }
{
    'pods: for entry in pods {
        if entry.name == *name {
            return entry.state;
        }
    }
    PodState::Absent
}

impl PodMachine {
    /// The pod's state.
    pub fn state(&self, pod: PodId) -> PodState
        ensures { result ≡ state_in (pod_text pod.bytes) self.now }
    {
        state_among(self.pods.as_slice(), &pod.name())
    }

    /// The pod's phase. None where it doesn't exist.
    pub fn phase(&self, pod: PodId) -> Option<Phase>
        ensures { result ≡ phase_of_state (state_in (pod_text pod.bytes) self.now) }
    {
        self.state(pod).phase()
    }

    /// The pod's owner, if it has one.
    pub fn owner(&self, pod: PodId) -> Option<u32>
        ensures { result ≡ owner_of (state_in (pod_text pod.bytes) self.now) }
    {
        self.state(pod).owner()
    }
}
