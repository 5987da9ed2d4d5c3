// One pod's state after a trace.
ghost use Rattle.std.specs.Prelude.{◌≡◌, cond, IfOk, None};
ghost use Rattle.lifecycle.specs.PodMachine.{arrival, transition_if};
ghost use Rattle.lifecycle.specs.Watch.{watch, watched, watched_done, begun_delete};

use crate::grip::{Grip, grips_replied, held_exclusively, opened_in_garbage};
use crate::machine::{PodState, Transition, arrival};
use crate::place::is_of;
use dir_model::{Area, Event, Handle, Mode, Name, NoMemory, Reply, Request};
use std::alloc::Global;

fn if_so(so: bool, transition: Transition) -> Option<Transition>
    ensures { result ≡ transition_if so transition }
{
    if so { Some(transition) } else { None }
}

fn arrival_if(so: bool, area: Area) -> Option<Transition>
    ensures { result ≡ cond so (arrival area) None }
{
    if so { arrival(area) } else { None }
}

// An exclusive lock by a handle that was opened in a garbage area begins a deletion.
fn begun_delete(
    state: PodState,
    grips: &[Grip],
    process: u32,
    handle: Handle,
    mode: Mode,
) -> Option<Transition>
    ensures { result ≡ begun_delete state grips.now process handle mode }
{
    match mode {
        Mode::Exclusive => {
            let there = opened_in_garbage(grips, process, handle);
            let stands = !state.is_gone();
            if_so(stands && there, Transition::BeginDelete)
        }
        Mode::Shared => None,
    }
}

// Which transition of the pod a request is that was answered Ok.
fn watched_done(
    name: &Name,
    state: PodState,
    grips: &[Grip],
    process: u32,
    request: &Request,
) -> Option<Transition>
    ensures { result ≡ watched_done name.now state grips.now process request.now }
{
    match request {
        Request::MakeFolder(spot) => if_so(is_of(name, spot), Transition::Make),
        Request::MoveFolder { to, .. } => arrival_if(is_of(name, to), to.area),
        Request::TryLock { handle, mode } => begun_delete(state, grips, process, *handle, *mode),
        Request::Close(handle) => {
            let held = held_exclusively(grips, process, *handle);
            let owns = state.is_owned_by(process);
            if_so(owns && held, Transition::End)
        }
        Request::RemoveFolder(spot) => if_so(is_of(name, spot), Transition::Remove),
        Request::Finish => if_so(state.is_owned_by(process), Transition::End),
        Request::Kill => if_so(state.is_owned_by(process), Transition::End),
        _ => None,
    }
}

fn watched(name: &Name, state: PodState, grips: &[Grip], event: &Event) -> Option<Transition>
    ensures { result ≡ watched name.now state grips.now event.now.process event.now.request event.now.reply }
{
    match event.reply {
        Reply::Done => watched_done(name, state, grips, event.process, &event.request),
        _ => None,
    }
}

/// The state of the pod of this name after some events, the oldest first. Refused only where memory
/// ran out.
pub fn replay_pod(alloc: Global, events: &[Event], name: &Name) -> Result<PodState, NoMemory>
    ensures { IfOk result (λ state. state ≡ (watch name.now events.now).state) }
{
    let mut grips: Vec<Grip> = Vec::new(alloc);
    let mut state = PodState::Absent;
    'events: for event in events {
        let transition = watched(name, state, grips.as_slice(), event);
        grips_replied(&mut grips, name, event)?;
        state = state.after(transition, event.process);
    }
    Ok(state)
}
