// What a process knows by its own answers.
ghost use Rattle.std.specs.Prelude.{◌≡◌, ◌+◌, ◌<◌, ◌≤◌, ◌==◌, ◌++◌, ◌∷◌, [], not, map, filter, true, None, vec_len, vec_capacity};
ghost use Rattle.dir_model.specs.Local.{is_handle_of, held_in, is_open_among};

use dir_model::{Handle, Holding, Intent, Mode, Reply, Request, Target};
use dir_state::target_of;
use std::alloc::Global;

/// What it began as, whether it has finished, and its open handles, the newest last.
#[derive(Drop)]
pub struct LocalView {
    pub intent: Option<Intent>,
    pub finished: bool,
    pub held: Vec<Holding>,
}

impl LocalView {
    ghost use Rattle.std.specs.Prelude.{◌≡◌, ◌+◌, ◌<◌, ◌≤◌, vec_len, vec_capacity};
    ghost use Rattle.dir_model.specs.Local.{nothing_local, local_done, local_opened, local_replied, without, IsOpen};
    ghost use Rattle.dir_memory.specs.Memories.{is_active, local_of};

    /// It hasn't begun. Takes no memory.
    pub fn new(alloc: Global) -> LocalView
        ensures { local_of result ≡ nothing_local }
    {
        LocalView {
            intent: None,
            finished: false,
            held: Vec::new(alloc),
        }
    }

    /// It hasn't begun, for the next process. Takes no memory.
    pub fn forget(&mut self)
        ensures { local_of self.new ≡ nothing_local }
    {
        self.intent = None;
        self.finished = false;
        self.held.clear();
    }

    /// Whether it has begun and not finished.
    pub fn is_active(&self) -> bool
        ensures { result ≡ is_active (local_of self.now) }
    {
        self.intent.is_some() && !self.finished
    }

    /// A request was answered Ok. Takes no memory.
    pub fn note_done(&mut self, request: &Request)
        ensures local { local_of self.new ≡ local_done (local_of self.old) request.now }
        ensures fewer { vec_len self.new.held ≤ vec_len self.old.held }
    {
        match request {
            Request::Begin(intent) => self.intent = Some(*intent),
            Request::TryLock { handle, mode } => lock_held(&mut self.held, *handle, *mode),
            Request::Close(handle) => drop_held(&mut self.held, *handle),
            Request::Finish => self.note_finished(),
            _ => (),
        }
    }

    /// An open handle is given up. Takes no memory.
    pub fn note_closed(&mut self, handle: Handle)
        requires { IsOpen (local_of self.old) handle }
        ensures local { local_of self.new ≡ without (local_of self.old) handle }
        ensures fewer { vec_len self.new.held + 1 ≤ vec_len self.old.held }
    {
        drop_held(&mut self.held, handle);
    }

    /// The process has ended, and its handles with it. Takes no memory.
    pub fn note_finished(&mut self)
        ensures { local_of self.new ≡ local_done (local_of self.old) Request.Finish }
    {
        self.finished = true;
        self.held.clear();
    }

    fn note_opened(&mut self, request: &Request, handle: Handle)
        requires { vec_len self.old.held < vec_capacity self.old.held }
        ensures local { local_of self.new ≡ local_opened (local_of self.old) request.now handle }
        ensures most { vec_len self.new.held ≤ vec_len self.old.held + 1 }
    {
        match request {
            Request::Open { spot, which } => hold(&mut self.held, handle, target_of(spot, *which)),
            Request::OpenArea(area) => hold(&mut self.held, handle, Target::Gate(*area)),
            _ => (),
        }
    }

    /// A request was answered, and there is room for one more handle. Takes no memory.
    pub fn note(&mut self, request: &Request, reply: &Reply)
        requires { vec_len self.old.held < vec_capacity self.old.held }
        ensures local { local_of self.new ≡ local_replied (local_of self.old) request.now reply.now }
        ensures most { vec_len self.new.held ≤ vec_len self.old.held + 1 }
    {
        match reply {
            Reply::Done => self.note_done(request),
            Reply::Opened(handle) => self.note_opened(request, *handle),
            _ => (),
        }
    }
}

fn hold(held: &mut Vec<Holding>, handle: Handle, target: Target)
    requires { vec_len held.old < vec_capacity held.old }
    ensures items { held.new.items ≡ held.old.items ++ record { handle = handle; target = target; lock = None } ∷ [] }
    ensures len { vec_len held.new ≡ vec_len held.old + 1 }
{
    held.push_reserved(Holding {
        handle,
        target,
        lock: None,
    });
}

fn held_by(holding: Holding, handle: Handle, mode: Mode) -> Holding
    ensures { result ≡ held_in handle mode holding }
{
    if holding.handle.number == handle.number {
        Holding {
            handle: holding.handle,
            target: holding.target,
            lock: Some(mode),
        }
    } else {
        holding
    }
}

fn lock_held(held: &mut [Holding], handle: Handle, mode: Mode)
    ensures { held.new ≡ map (held_in handle mode) held.old }
{
    for holding in held.iter_mut() {
        *holding = held_by(*holding, handle, mode);
    }
}

fn drop_held(held: &mut Vec<Holding>, handle: Handle)
    ensures items { held.new.items ≡ filter (λ h. not (is_handle_of handle h)) held.old.items }
    ensures fewer { vec_len held.new ≤ vec_len held.old }
    ensures open { is_open_among handle held.old.items ≡ true → vec_len held.new + 1 ≤ vec_len held.old }
{
    // The lengths of the slices tie the count of the vector to its items.
    let before = held.as_slice().len();
    held.retain(|h| h.handle.number != handle.number);
    let after = held.as_slice().len();
    prove!(after <= before);
}
