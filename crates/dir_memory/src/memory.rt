// A data folder in memory, and what its calls have in common.
ghost use Rattle.std.specs.Prelude.{◌≡◌, ◌+◌, ◌==◌, ◌&&◌, not, cond};
ghost use Rattle.std.specs.List.{list_any};
ghost use Rattle.dir_model.specs.Calls.{is_begin};
ghost use Rattle.dir_model.specs.Listings.{is_listing_request};
ghost use Rattle.dir_model.specs.Replies.{is_fallible};
ghost use Rattle.dir_memory.specs.Memories.{raised, is_up_to};

use crate::local::LocalView;
use crate::planned::{Planned, is_listed, is_up_to_next};
use crate::step::{begin_step, end_step, inside_come, one_step, steps_come};
use dir_model::{DirError, Event, Handle, History, NoMemory, Reply, Request};
use dir_state::Past;
use std::alloc::Global;
use std::marker::Model;

/// A data folder in memory, as one process sees it. Its trace can be read. Other processes take
/// the steps that were scheduled for them.
#[derive(Drop)]
pub struct MemoryDir {
    past: Past,
    own: LocalView,
    process: u32,
    faults: u64,
    calls: u64,
    numbered: u64,
    pending: Vec<Planned>,
    failing: Vec<u64>,
    stop: Option<u64>,
    killed: bool,
}

impl Model for MemoryDir {
    ghost use Rattle.std.specs.Prelude.{vec_len};
    ghost use Rattle.dir_memory.specs.Memories.{Memory, IsMemory, local_of};

    ghost Value = { Memory };

    ghost view = { λ d. record {
      trace = d.past.items;
      process = d.process;
      faults = d.faults;
      calls = d.calls;
      numbered = d.numbered;
      local = local_of d.own;
      pending = d.pending.items;
      failing = d.failing.items;
      stop = d.stop;
      killed = d.killed;
    } };

    ghost invariant = { λ d. IsMemory d.past d.process (local_of d.own) (vec_len d.own.held) d.killed };
}

impl MemoryDir {
    ghost use Rattle.std.specs.Prelude.{◌≡◌, ◌⊎◌, ◌≤◌, ◌++◌, ◌∷◌, [], true, false, None, Some, IfOk};
    ghost use Rattle.dir_model.specs.Calls.{IsRun};
    ghost use Rattle.dir_model.specs.Listings.{is_listing_request};
    ghost use Rattle.dir_model.specs.declared.spot.Handle.{Handle};
    ghost use Rattle.dir_model.specs.Local.{nothing_local, IsActive, IsOpen, IsUnopened};
    ghost use Rattle.dir_model.specs.State.{has_begun, lives};
    ghost use Rattle.dir_model.specs.Trace.{state_after};
    ghost use Rattle.dir_memory.specs.Memories.{Answered, MemoryFollows, Listed, CutOff, FollowsListing, RanOut, CallerWasKilled, is_stopped, may_be_called, is_numbered, scheduled, passed_on, memory_given_up, short_of_memory};

    /// The empty data folder, before this process has begun: nothing is scheduled, and no call is
    /// to fail. Refused only where memory ran out.
    pub fn new(alloc: Global, process: u32) -> Result<MemoryDir, NoMemory>
        ensures { IfOk result (λ d. d ≡ record {
          trace = [];
          process = process;
          faults = 0;
          calls = 0;
          numbered = 0;
          local = nothing_local;
          pending = [];
          failing = [];
          stop = None;
          killed = false;
        }) }
    {
        Ok(MemoryDir {
            past: Past::new(alloc),
            own: LocalView::new(alloc),
            process,
            faults: 0,
            calls: 0,
            numbered: 0,
            pending: Vec::new(alloc),
            failing: Vec::new(alloc),
            stop: None,
            killed: false,
        })
    }

    /// Lets another process take a step just before this process's call with that number, counted
    /// from 1, which is `begin`; `faults`, `process`, `close` and `finish` have no number. Steps
    /// before the same call come in the order of scheduling, and a step before a call that has
    /// passed never comes. Its reply is the state's, and a listing begins and ends there. A step
    /// that isn't possible then leaves no event: one of this process's own number, of a process
    /// that hasn't begun or is over, at a path that is none, a lock by a handle that isn't open or
    /// holds one, the close of a handle that isn't open. Refused only where memory ran out.
    pub fn schedule(
        self,
        _alloc: Global,
        before: u64,
        process: u32,
        request: Request,
    ) -> Result<MemoryDir, NoMemory>
        ensures { IfOk result (λ d. d ≡ scheduled self (record { before = before; inside = false; process = process; request = request })) }
    {
        let mut dir = self;
        if before > dir.numbered {
            dir.pending.push(Planned {
                before,
                inside: false,
                process,
                request,
            })?;
        }
        Ok(dir)
    }

    /// Lets the step come between the beginning and the end of that call, where it is a listing, and
    /// else just before it. Refused only where memory ran out.
    pub fn inside(
        self,
        _alloc: Global,
        call: u64,
        process: u32,
        request: Request,
    ) -> Result<MemoryDir, NoMemory>
        ensures { IfOk result (λ d. d ≡ scheduled self (record { before = call; inside = true; process = process; request = request })) }
    {
        let mut dir = self;
        if call > dir.numbered {
            dir.pending.push(Planned {
                before: call,
                inside: true,
                process,
                request,
            })?;
        }
        Ok(dir)
    }

    /// The call with that number fails: it answers `Failed`, the count of faults rises, and nothing
    /// changes; an append leaves nothing, and a listing fails at its end. Steps that were scheduled
    /// before it still come. A `begin` never fails. Refused only where memory ran out.
    pub fn fail(self, _alloc: Global, call: u64) -> Result<MemoryDir, NoMemory>
        requires { 2 ≤ call }
        ensures { IfOk result (λ d. d ≡ record self { failing = self.failing ++ call ∷ [] }) }
    {
        let mut dir = self;
        dir.failing.push(call)?;
        Ok(dir)
    }

    /// This process is killed before that call, after the steps that are due then. That call and all
    /// later ones answer `Failed`, the count of faults rises at each, and no event of this process
    /// is added but the kill. Takes no memory.
    pub fn stop(self, call: u64) -> MemoryDir
        requires { 2 ≤ call }
        ensures { result ≡ record self { stop = Some call } }
    {
        let mut dir = self;
        dir.stop = Some(call);
        dir
    }

    /// The same data folder for another process, which never began: nothing is scheduled, no call
    /// is to fail, its calls are counted from 1, and the count of faults goes on. If this process
    /// has begun and neither finished nor been killed, it is killed. Takes no memory.
    pub fn next_process(self, process: u32) -> MemoryDir
        requires { has_begun (state_after self.trace).namespace process ≡ false }
        ensures { result ≡ passed_on self process }
    {
        let mut dir = self;
        let lives = dir.own.is_active() && !dir.killed;
        dir.past.end(dir.process, lives);
        dir.own.forget();
        dir.process = process;
        dir.calls = 0;
        dir.numbered = 0;
        dir.pending.clear();
        dir.failing.clear();
        dir.stop = None;
        dir.killed = false;
        dir
    }

    /// Whether the process has begun.
    pub fn has_begun(&self, process: u32) -> bool
        ensures { result ≡ has_begun (state_after self.now.trace).namespace process }
    {
        self.past.has_begun(process)
    }

    /// The events so far, of all processes, the oldest first.
    pub fn history(&self) -> &History
        ensures { result.now.items ≡ self.now.trace }
    {
        self.past.events()
    }

    /// The number of this process.
    pub fn number(&self) -> u32
        ensures { result ≡ self.now.process }
    {
        self.process
    }

    /// How many calls with a number this process has made.
    pub fn calls(&self) -> u64
        ensures { result ≡ self.now.numbered }
    {
        self.numbered
    }

    /// How often the folder failed so far.
    pub fn fault_count(&self) -> u64
        ensures { result ≡ self.now.faults }
    {
        self.faults
    }

    fn is_stopped(&self, request: &Request) -> bool
        ensures { result ≡ is_stopped self.now request.now }
    {
        !is_begin(request) && (self.killed || is_up_to(self.stop, self.numbered))
    }

    // A call after the kill, or before which it comes.
    fn stopped_call(&mut self, request: Request) -> Reply
        requires stopped { is_stopped self.old request ≡ true }
        requires may { may_be_called self.old.local request ≡ true }
        ensures follows { RanOut self.old request result self.new ⊎ CallerWasKilled self.old request result self.new }
        ensures unopened { (handle : Handle) → result ≡ Reply.Opened handle → IsUnopened self.old.local handle }
        ensures run { IsRun self.new.trace }
        ensures faults { self.old.faults ≤ self.new.faults }
    {
        let came = steps_come(
            &mut self.past,
            self.process,
            &mut self.pending,
            self.numbered,
            is_listing(&request),
        );
        self.calls = self.calls.saturating_add(1);
        self.numbered = self.numbered.saturating_add(1);
        let Ok(()) = came else {
            return Reply::Refused {
                error: DirError::NoMemory,
                left: 0,
            };
        };
        self.past.end(self.process, !self.killed);
        self.killed = true;
        self.faults = self.faults.saturating_add(1);
        Reply::Refused {
            error: DirError::Failed,
            left: 0,
        }
    }

    // A call with a number that is no listing, of a process that wasn't killed.
    fn live_call(&mut self, request: Request) -> Reply
        requires lives { is_stopped self.old request ≡ false }
        requires numbered { is_numbered request ≡ true }
        requires plain { is_listing_request request ≡ false }
        requires may { may_be_called self.old.local request ≡ true }
        ensures follows { Answered self.old request result self.new ⊎ RanOut self.old request result self.new }
        ensures unopened { (handle : Handle) → result ≡ Reply.Opened handle → IsUnopened self.old.local handle }
        ensures run { IsRun self.new.trace }
        ensures faults { self.old.faults ≤ self.new.faults }
    {
        let fails = fails_next(&self.failing, self.numbered, &request);
        let answered = one_step(
            &mut self.past,
            &mut self.own,
            &mut self.pending,
            self.process,
            self.numbered,
            fails,
            request,
        );
        self.calls = self.calls.saturating_add(1);
        self.numbered = self.numbered.saturating_add(1);
        let Ok(reply) = answered else {
            return Reply::Refused {
                error: DirError::NoMemory,
                left: 0,
            };
        };
        self.faults = raised_if(self.faults, fails);
        reply
    }

    // A listing, of a process that wasn't killed.
    fn live_listing(&mut self, request: Request) -> Reply
        requires lives { is_stopped self.old request ≡ false }
        requires asks { is_listing_request request ≡ true }
        requires may { may_be_called self.old.local request ≡ true }
        ensures follows { Listed self.old request result self.new ⊎ (CutOff self.old request result self.new ⊎ RanOut self.old request result self.new) }
        ensures run { IsRun self.new.trace }
        ensures faults { self.old.faults ≤ self.new.faults }
    {
        let fails = fails_next(&self.failing, self.numbered, &request);
        let begun = begin_step(
            &mut self.past,
            &mut self.pending,
            self.process,
            self.numbered,
            &request,
        );
        let number = self.numbered;
        self.calls = self.calls.saturating_add(1);
        self.numbered = self.numbered.saturating_add(1);
        let Ok(()) = begun else {
            return Reply::Refused {
                error: DirError::NoMemory,
                left: 0,
            };
        };
        let came = inside_come(&mut self.past, self.process, &mut self.pending, number);
        let ended = end_step(&mut self.past, self.process, fails, came, request);
        self.faults = raised_by_end(self.faults, fails, ended.cut);
        ended.reply
    }

    /// A call with a number that is no listing.
    pub fn call(&mut self, request: Request) -> Reply
        requires numbered { is_numbered request ≡ true }
        requires plain { is_listing_request request ≡ false }
        requires may { may_be_called self.old.local request ≡ true }
        ensures follows { MemoryFollows self.old request result self.new }
        ensures unopened { (handle : Handle) → result ≡ Reply.Opened handle → IsUnopened self.old.local handle }
        ensures run { IsRun self.new.trace }
        ensures faults { self.old.faults ≤ self.new.faults }
    {
        if self.is_stopped(&request) {
            return self.stopped_call(request);
        }
        self.live_call(request)
    }

    /// A listing.
    pub fn list(&mut self, request: Request) -> Reply
        requires asks { is_listing_request request ≡ true }
        requires may { may_be_called self.old.local request ≡ true }
        ensures follows { FollowsListing self.old request result self.new }
        ensures run { IsRun self.new.trace }
        ensures faults { self.old.faults ≤ self.new.faults }
    {
        if self.is_stopped(&request) {
            return self.stopped_call(request);
        }
        self.live_listing(request)
    }

    /// Memory ran out before a call could be noted.
    pub fn run_out(&mut self)
        ensures same { self.new ≡ short_of_memory self.old }
        ensures run { IsRun self.new.trace }
    {
        self.calls = self.calls.saturating_add(1);
        self.numbered = self.numbered.saturating_add(1);
    }

    /// An open handle is given up.
    pub fn give_up_handle(&mut self, handle: Handle)
        requires active { IsActive self.old.local }
        requires open { IsOpen self.old.local handle }
        ensures follows { self.new ≡ memory_given_up self.old (Request.Close handle) }
        ensures run { IsRun self.new.trace }
        ensures over { self.old.killed ≡ true → lives (state_after self.old.trace).namespace self.old.process ≡ false }
    {
        self.calls = self.calls.saturating_add(1);
        self.own.note_closed(handle);
        if !self.killed {
            self.past.add_plain(Event {
                process: self.process,
                request: Request::Close(handle),
                reply: Reply::Done,
            });
        }
    }

    /// The process is over.
    pub fn give_up(&mut self)
        requires active { IsActive self.old.local }
        ensures follows { self.new ≡ memory_given_up self.old Request.Finish }
        ensures run { IsRun self.new.trace }
        ensures over { self.old.killed ≡ true → lives (state_after self.old.trace).namespace self.old.process ≡ false }
    {
        self.calls = self.calls.saturating_add(1);
        self.own.note_finished();
        if !self.killed {
            self.past.add_plain(Event {
                process: self.process,
                request: Request::Finish,
                reply: Reply::Done,
            });
        }
    }
}

fn is_listing(request: &Request) -> bool
    ensures { result ≡ is_listing_request request.now }
{
    matches!(request, Request::ListArea(_) | Request::ListIn(_))
}

fn is_begin(request: &Request) -> bool
    ensures { result ≡ is_begin request.now }
{
    matches!(request, Request::Begin(_))
}

// Whether the number is at most that of the call after so many.
fn is_up_to(number: Option<u64>, calls: u64) -> bool
    ensures { result ≡ is_up_to number (calls + 1) }
{
    match number {
        Some(number) => is_up_to_next(number, calls),
        None => false,
    }
}

fn fails_next(failing: &[u64], numbered: u64, request: &Request) -> bool
    ensures { result ≡ is_fallible request.now && list_any (λ number. number == numbered + 1) failing.now }
{
    let listed = is_listed(failing, numbered);
    is_fallible(request) && listed
}

fn is_fallible(request: &Request) -> bool
    ensures { result ≡ is_fallible request.now }
{
    match request {
        Request::Begin(_) | Request::Close(_) | Request::Finish | Request::Kill => false,
        _ => true,
    }
}

fn raised_if(count: u64, rises: bool) -> u64
    ensures { result ≡ cond rises (raised count) count }
{
    if rises {
        count.saturating_add(1)
    } else {
        count
    }
}

// A listing that memory ran out for doesn't fail.
fn raised_by_end(count: u64, fails: bool, cut: bool) -> u64
    ensures { result ≡ cond (fails && not cut) (raised count) count }
{
    if cut {
        return count;
    }
    raised_if(count, fails)
}
