// The open handles on a pod's own lock.
ghost use Rattle.std.specs.Prelude.{◌≡◌, ◌==◌, not, map, filter, find, OnOk};
ghost use Rattle.lifecycle.specs.Watch.{gripped, is_this, on_grip, is_exclusive_mode, grips_done, grips_opened, grips_replied};

use crate::place::{is_garbage, is_of};
use dir_model::{Event, Handle, Mode, Name, NoMemory, Reply, Request, Which};

/// An open handle on a pod's own lock: whose it is, whether it was opened in a garbage area, and
/// whether it holds the lock exclusively.
#[derive(Clone, Copy, Debug, PartialEq, Eq)]
pub struct Grip {
    pub process: u32,
    pub handle: Handle,
    pub in_garbage: bool,
    pub exclusive: bool,
}

fn is_this(process: u32, handle: Handle, grip: &Grip) -> bool
    ensures { result ≡ is_this process handle grip.now }
{
    grip.process == process && grip.handle.number == handle.number
}

/// The process's handle was opened in a garbage area.
pub fn opened_in_garbage(grips: &[Grip], process: u32, handle: Handle) -> bool
    ensures { result ≡ on_grip (λ g. g.in_garbage) (find (is_this process handle) grips.now) }
{
    'grips: for grip in grips {
        if is_this(process, handle, grip) {
            return grip.in_garbage;
        }
    }
    false
}

/// The process's handle holds the lock exclusively.
pub fn held_exclusively(grips: &[Grip], process: u32, handle: Handle) -> bool
    ensures { result ≡ on_grip (λ g. g.exclusive) (find (is_this process handle) grips.now) }
{
    'grips: for grip in grips {
        if is_this(process, handle, grip) {
            return grip.exclusive;
        }
    }
    false
}

fn is_exclusive(mode: Mode) -> bool
    ensures { result ≡ is_exclusive_mode mode }
{
    match mode {
        Mode::Shared => false,
        Mode::Exclusive => true,
    }
}

fn gripped(grip: Grip, process: u32, handle: Handle, exclusive: bool) -> Grip
    ensures { result ≡ gripped process handle exclusive grip }
{
    if is_this(process, handle, &grip) {
        Grip {
            process: grip.process,
            handle: grip.handle,
            in_garbage: grip.in_garbage,
            exclusive,
        }
    } else {
        grip
    }
}

fn lock_all(grips: &mut [Grip], process: u32, handle: Handle, exclusive: bool)
    ensures { grips.new ≡ map (gripped process handle exclusive) grips.old }
{
    'grips: for grip in grips.iter_mut() {
        *grip = gripped(*grip, process, handle, exclusive);
    }
}

fn close_all(grips: &mut Vec<Grip>, process: u32, handle: Handle)
    ensures { grips.new.items ≡ filter (λ g. not (is_this process handle g)) grips.old.items }
{
    grips.retain(|grip| !is_this(process, handle, grip))
}

fn end_all(grips: &mut Vec<Grip>, process: u32)
    ensures { grips.new.items ≡ filter (λ g. not (g.process == process)) grips.old.items }
{
    grips.retain(|grip| grip.process != process)
}

fn grips_done(grips: &mut Vec<Grip>, process: u32, request: &Request)
    ensures { grips.new.items ≡ grips_done grips.old.items process request.now }
{
    match request {
        Request::TryLock { handle, mode } => lock_all(grips, process, *handle, is_exclusive(*mode)),
        Request::Close(handle) => close_all(grips, process, *handle),
        Request::Finish => end_all(grips, process),
        Request::Kill => end_all(grips, process),
        _ => (),
    }
}

fn grips_opened(
    grips: &mut Vec<Grip>,
    name: &Name,
    process: u32,
    request: &Request,
    handle: Handle,
) -> Result<(), NoMemory>
    ensures { OnOk result (grips.new.items ≡ grips_opened name.now grips.old.items process request.now handle) }
{
    match request {
        Request::Open {
            spot,
            which: Which::Own,
        } => {
            if is_of(name, spot) {
                let in_garbage = is_garbage(spot.area);
                grips.push(Grip {
                    process,
                    handle,
                    in_garbage,
                    exclusive: false,
                })?;
            }
            Ok(())
        }
        _ => Ok(()),
    }
}

/// The handles on the pod's lock after one event more. Refused only where memory ran out.
pub fn grips_replied(grips: &mut Vec<Grip>, name: &Name, event: &Event) -> Result<(), NoMemory>
    ensures { OnOk result (grips.new.items
        ≡ grips_replied name.now grips.old.items event.now.process event.now.request event.now.reply) }
{
    match event.reply {
        Reply::Done => {
            grips_done(grips, event.process, &event.request);
            Ok(())
        }
        Reply::Opened(handle) => grips_opened(grips, name, event.process, &event.request, handle),
        _ => Ok(()),
    }
}
