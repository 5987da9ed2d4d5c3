// The trace of a directory, and the state that it leaves.
ghost use Rattle.std.specs.Prelude.{◌≡◌, ◌+◌, ◌-◌, ◌<◌, ◌++◌, ◌∷◌, []};
ghost use Rattle.dir_model.specs.Reserved.{reserved};
ghost use Rattle.dir_model.specs.Trace.{state_next};
ghost use Rattle.dir_state.specs.Parts.{table_state, IsBrought};

use crate::bring::nothing;
use crate::parts::{Brought, Table};
use crate::table::is_listing_request;
use dir_model::{Event, History, NoMemory, Reply, Request};
use std::alloc::Global;
use std::marker::Model;

/// The events so far, kept together with the state that they leave. Contracts see the events, and
/// for how many more there is room.
#[derive(Drop)]
pub struct Past {
    events: History,
    table: Table,
    spare: usize,
}

impl Model for Past {
    ghost use Rattle.dir_model.specs.Reserved.{Reserved, reserved};
    ghost use Rattle.dir_model.specs.declared.event.Event.{Event};
    ghost use Rattle.dir_state.specs.Parts.{IsPast};

    ghost Value = { Reserved Event };

    ghost view = { λ p. reserved p.events.items p.spare };

    ghost invariant = { λ p. IsPast p.events p.table p.spare };
}

// On both sides.
fn add_both(events: &mut History, table: &mut Table, event: Event, brought: Brought)
    requires events { 0 < events.old.spare }
    requires namespace { 0 < table.old.namespace.spare }
    requires trees { 0 < table.old.trees.spare }
    requires brought { IsBrought (table_state table.old) event.process event.request event.reply brought }
    ensures events { events.new ≡ reserved (events.old.items ++ event ∷ []) (events.old.spare - 1) }
    ensures namespace { table.new.namespace.spare + 1 ≡ table.old.namespace.spare }
    ensures trees { table.new.trees.spare + 1 ≡ table.old.trees.spare }
    ensures state { table_state table.new ≡ state_next (table_state table.old) event }
{
    table.apply(event.process, &event.request, &event.reply, brought);
    let Event {
        process,
        request,
        reply,
    } = event;
    events.add(Event {
        process,
        request,
        reply,
    });
}

impl Past {
    ghost use Rattle.std.specs.Prelude.{◌≡◌, ◌+◌, ◌-◌, ◌<◌, ◌≤◌, ◌++◌, ◌∷◌, [], cond, true, false, OnOk, OnErr, IfOk};
    ghost use Rattle.dir_model.specs.Trace.{state_after};
    ghost use Rattle.dir_model.specs.Calls.{IsRun, is_allowed, may_step, event};
    ghost use Rattle.dir_model.specs.State.{has_begun, lives};
    ghost use Rattle.dir_model.specs.Listings.{is_listing_request};
    ghost use Rattle.dir_state.specs.Parts.{brings_nothing, kill_of};
    ghost use Rattle.dir_state.specs.Answers.{answer, listing_answer, is_met, step_of, taken_step};

    /// No event. Takes no memory.
    pub fn new(alloc: Global) -> Past
        ensures { result ≡ reserved [] 0 }
    {
        Past {
            events: History::new(alloc),
            table: Table::new(alloc),
            spare: 0,
        }
    }

    /// Room for `more` events at least. Refused only where memory ran out.
    pub fn reserve(&mut self, more: usize) -> Result<(), NoMemory>
        ensures same { self.new.items ≡ self.old.items }
        ensures room { OnOk result (more ≤ self.new.spare) }
        ensures kept { self.old.spare ≤ self.new.spare }
        ensures run { IsRun self.new.items }
    {
        if self.spare < more {
            self.events.reserve(more)?;
            self.table.reserve(more)?;
            self.spare = more;
        }
        Ok(())
    }

    /// Room for some events more than there is. Refused only where memory ran out.
    pub fn reserve_more(&mut self, more: usize) -> Result<(), NoMemory>
        ensures same { self.new.items ≡ self.old.items }
        ensures room { OnOk result (self.old.spare + more ≤ self.new.spare) }
        ensures kept { self.old.spare ≤ self.new.spare }
        ensures run { IsRun self.new.items }
    {
        let whole = self.spare.checked_add(more).ok_or(NoMemory)?;
        self.reserve(whole)
    }

    /// What an event brings. Refused only where memory ran out.
    pub fn bring(&self, process: u32, request: &Request, reply: &Reply) -> Result<Brought, NoMemory>
        ensures { IfOk result (IsBrought (state_after self.now.items) process request.now reply.now) }
    {
        self.table.bring(process, request, reply)
    }

    /// An event comes, for which there is room, and what it brings was made. Takes no memory.
    pub fn add(&mut self, event: Event, brought: Brought)
        requires room { 0 < self.old.spare }
        requires allowed { is_allowed (state_after self.old.items) event ≡ true }
        requires brought { IsBrought (state_after self.old.items) event.process event.request event.reply brought }
        ensures grown { self.new ≡ reserved (self.old.items ++ event ∷ []) (self.old.spare - 1) }
        ensures run { IsRun self.new.items }
    {
        self.spare -= 1;
        add_both(&mut self.events, &mut self.table, event, brought);
    }

    /// An event comes that brings nothing, for which there is room. Takes no memory.
    pub fn add_plain(&mut self, event: Event)
        requires room { 0 < self.old.spare }
        requires allowed { is_allowed (state_after self.old.items) event ≡ true }
        requires plain { brings_nothing event.request event.reply ≡ true }
        ensures grown { self.new ≡ reserved (self.old.items ++ event ∷ []) (self.old.spare - 1) }
        ensures run { IsRun self.new.items }
    {
        self.add(event, nothing());
    }

    /// An event comes. Refused only where memory ran out, and then nothing has changed but the room.
    pub fn take(&mut self, event: Event) -> Result<(), NoMemory>
        requires { is_allowed (state_after self.old.items) event ≡ true }
        ensures ok { OnOk result (self.new.items ≡ self.old.items ++ event ∷ []) }
        ensures err { OnErr result (self.new.items ≡ self.old.items) }
        ensures kept { self.old.spare ≤ self.new.spare }
        ensures run { IsRun self.new.items }
    {
        self.reserve_more(1)?;
        let brought = self.bring(event.process, &event.request, &event.reply)?;
        self.add(event, brought);
        Ok(())
    }

    /// An active process is killed, for which there is room. Takes no memory.
    pub fn end(&mut self, process: u32, active: bool)
        requires room { active ≡ true → 0 < self.old.spare }
        requires lives { active ≡ true → lives (state_after self.old.items).namespace process ≡ true }
        ensures grown { self.new.items ≡ self.old.items ++ kill_of active process }
        ensures run { IsRun self.old.items → IsRun self.new.items }
    {
        if active {
            self.add_plain(Event {
                process,
                request: Request::Kill,
                reply: Reply::Done,
            });
        }
    }

    /// Whether the process has begun.
    pub fn has_begun(&self, process: u32) -> bool
        ensures { result ≡ has_begun (state_after self.now.items).namespace process }
    {
        self.table.namespace.has_begun(process)
    }

    /// The state's own answer to a request; a listing begins. Refused only where memory ran out.
    pub fn answer(&self, process: u32, request: &Request) -> Result<Reply, NoMemory>
        ensures { IfOk result (λ reply. reply ≡ answer (state_after self.now.items) process request.now) }
    {
        self.table.answer(process, request)
    }

    /// The end of the listing that the process has open. Refused only where memory ran out.
    pub fn listing_answer(&self, process: u32) -> Result<Reply, NoMemory>
        ensures { IfOk result (λ reply. reply ≡ listing_answer (state_after self.now.items) process) }
    {
        self.table.listing_answer(process)
    }

    // A listing begins and ends.
    fn take_listing(&mut self, process: u32, request: &Request) -> Result<(), NoMemory>
        requires asks { is_listing_request request.now ≡ true }
        requires may { may_step (state_after self.old.items) process request.now ≡ true }
        requires met { is_met (state_after self.old.items) process request.now ≡ true }
        ensures ok { OnOk result (self.new.items ≡ self.old.items ++ step_of (state_after self.old.items) process request.now) }
        ensures err { OnErr result (self.new.items ≡ self.old.items) }
        ensures kept { self.old.spare ≤ self.new.spare }
        ensures run { IsRun self.old.items → IsRun self.new.items }
    {
        let end = self.table.whole_answer(process, request)?;
        let brought = self.bring(process, request, &Reply::Begun)?;
        let first = request.copy()?;
        let second = request.copy()?;
        self.reserve_more(2)?;
        self.add(
            Event {
                process,
                request: first,
                reply: Reply::Begun,
            },
            brought,
        );
        self.add_plain(Event {
            process,
            request: second,
            reply: end,
        });
        Ok(())
    }

    fn take_answer(&mut self, process: u32, request: &Request) -> Result<(), NoMemory>
        requires plain { is_listing_request request.now ≡ false }
        requires may { may_step (state_after self.old.items) process request.now ≡ true }
        requires met { is_met (state_after self.old.items) process request.now ≡ true }
        ensures ok { OnOk result (self.new.items ≡ self.old.items ++ step_of (state_after self.old.items) process request.now) }
        ensures err { OnErr result (self.new.items ≡ self.old.items) }
        ensures kept { self.old.spare ≤ self.new.spare }
        ensures run { IsRun self.old.items → IsRun self.new.items }
    {
        let reply = self.answer(process, request)?;
        let request = request.copy()?;
        self.take(Event {
            process,
            request,
            reply,
        })
    }

    /// The process takes the whole step, where that is possible, and is answered as the state says.
    /// Refused only where memory ran out, and then nothing has changed but the room.
    pub fn take_step(&mut self, process: u32, request: &Request) -> Result<(), NoMemory>
        ensures ok { OnOk result (self.new.items ≡ self.old.items ++ taken_step (state_after self.old.items) process request.now) }
        ensures err { OnErr result (self.new.items ≡ self.old.items) }
        ensures kept { self.old.spare ≤ self.new.spare }
        ensures run { IsRun self.old.items → IsRun self.new.items }
    {
        if !self.table.is_possible(process, request) {
            return Ok(());
        }
        if is_listing_request(request) {
            return self.take_listing(process, request);
        }
        self.take_answer(process, request)
    }

    /// The events.
    pub fn events(&self) -> &History
        ensures { result.now.items ≡ self.now.items }
    {
        &self.events
    }
}
