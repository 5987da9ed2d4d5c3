// One call: the steps of others that are due come first, and then its own.
ghost use Rattle.std.specs.Prelude.{◌≡◌, ℕ, ◌+◌, ◌-◌, ◌≤◌, ◌<◌, ◌++◌, ◌∷◌, [], cond, true, false, vec_len, OnOk, OnErr, IfOk};
ghost use Rattle.std.specs.List.{list_any};
ghost use Rattle.dir_model.specs.Listings.{is_listing, is_listing_request};
ghost use Rattle.dir_model.specs.Trace.{state_after};
ghost use Rattle.dir_model.specs.Replies.{is_fallible};
ghost use Rattle.dir_model.specs.Calls.{IsRun, may_step, event};
ghost use Rattle.dir_model.specs.Local.{local_replied};
ghost use Rattle.dir_model.specs.Reserved.{reserved};
ghost use Rattle.dir_state.specs.Answers.{listing_answer};
ghost use Rattle.dir_memory.specs.Schedules.{is_due, due, not_due, step_events, with_steps};
ghost use Rattle.dir_memory.specs.Interludes.{Interlude, TakesFirst, is_about_open};
ghost use Rattle.dir_memory.specs.Memories.{answer_or_failure, is_end_of, local_of, EndsWhole};

use crate::local::LocalView;
use crate::planned::Planned;
use dir_model::{DirError, Event, NoMemory, Reply, Request};
use dir_state::Past;

// Lets another take a step, where it is possible. Refused only where memory ran out, and then nothing
// has changed.
fn take_step(past: &mut Past, me: u32, step: &Planned) -> Result<(), NoMemory>
    ensures ok { OnOk result (past.new.items ≡ past.old.items ++ step_events me (state_after past.old.items) step.now) }
    ensures err { OnErr result (past.new.items ≡ past.old.items) }
    ensures interlude { Interlude me past.old.items past.new.items }
    ensures kept { past.old.spare ≤ past.new.spare }
{
    if step.process == me {
        return Ok(());
    }
    past.take_step(step.process, &step.request)
}

fn first_step(
    past: &mut Past,
    me: u32,
    pending: &mut Vec<Planned>,
    calls: u64,
    listing: bool,
) -> Result<(), NoMemory>
    requires { list_any (is_due (calls + 1) listing) pending.old.items ≡ true }
    ensures ok { OnOk result (TakesFirst me (calls + 1) listing past.old.items pending.old.items past.new.items pending.new.items) }
    ensures fewer { OnOk result (vec_len pending.new < vec_len pending.old) }
    ensures steps { OnErr result (pending.new.items ≡ pending.old.items) }
    ensures err { OnErr result (past.new.items ≡ past.old.items) }
    ensures interlude { Interlude me past.old.items past.new.items }
    ensures kept { past.old.spare ≤ past.new.spare }
{
    let place = Planned::first_due(pending, calls, listing);
    take_step(past, me, &pending[place])?;
    let _taken = pending.remove(place);
    Ok(())
}

fn others_step(
    past: &mut Past,
    me: u32,
    pending: &mut Vec<Planned>,
    calls: u64,
    listing: bool,
) -> Result<(), NoMemory>
    ensures interlude { Interlude me past.old.items past.new.items }
    ensures first { with_steps me past.new.items (due (calls + 1) listing pending.new.items) ≡ with_steps me past.old.items (due (calls + 1) listing pending.old.items) }
    ensures later { not_due (calls + 1) listing pending.new.items ≡ not_due (calls + 1) listing pending.old.items }
    ensures all { OnOk result (list_any (is_due (calls + 1) listing) pending.new.items ≡ false) }
    ensures kept { past.old.spare ≤ past.new.spare }
{
    'due: while Planned::is_any_due(pending, calls, listing) {
        first_step(past, me, pending, calls, listing)?;
    }
    Ok(())
}

/// The steps that are due come. Where memory runs out, the others are still due.
pub fn steps_come(
    past: &mut Past,
    me: u32,
    pending: &mut Vec<Planned>,
    calls: u64,
    listing: bool,
) -> Result<(), NoMemory>
    ensures interlude { Interlude me past.old.items past.new.items }
    ensures first { with_steps me past.new.items (due (calls + 1) listing pending.new.items) ≡ with_steps me past.old.items (due (calls + 1) listing pending.old.items) }
    ensures later { not_due (calls + 1) listing pending.new.items ≡ not_due (calls + 1) listing pending.old.items }
    ensures arrived { OnOk result (past.new.items ≡ with_steps me past.old.items (due (calls + 1) listing pending.old.items)) }
    ensures left { OnOk result (pending.new.items ≡ not_due (calls + 1) listing pending.old.items) }
    ensures kept { past.old.spare ≤ past.new.spare }
{
    others_step(past, me, pending, calls, listing)
}

/// The steps come that are meant to come inside a listing. False where memory ran out: the others are
/// still due.
pub fn inside_come(past: &mut Past, me: u32, pending: &mut Vec<Planned>, calls: u64) -> bool
    ensures interlude { Interlude me past.old.items past.new.items }
    ensures first { with_steps me past.new.items (due (calls + 1) false pending.new.items) ≡ with_steps me past.old.items (due (calls + 1) false pending.old.items) }
    ensures later { not_due (calls + 1) false pending.new.items ≡ not_due (calls + 1) false pending.old.items }
    ensures arrived { result ≡ true → past.new.items ≡ with_steps me past.old.items (due (calls + 1) false pending.old.items) }
    ensures left { result ≡ true → pending.new.items ≡ not_due (calls + 1) false pending.old.items }
    ensures kept { past.old.spare ≤ past.new.spare }
{
    match steps_come(past, me, pending, calls, false) {
        Ok(()) => true,
        Err(_) => false,
    }
}

fn reply_to(past: &Past, me: u32, fails: bool, request: &Request) -> Result<Reply, NoMemory>
    ensures { IfOk result (λ reply. reply ≡ answer_or_failure fails (state_after past.now.items) me request.now) }
{
    if fails {
        return Ok(Reply::Refused {
            error: DirError::Failed,
            left: 0,
        });
    }
    past.answer(me, request)
}

/// This process's own step. Where memory runs out, nothing has changed.
pub fn own_step(
    past: &mut Past,
    own: &mut LocalView,
    me: u32,
    fails: bool,
    request: Request,
) -> Result<Reply, NoMemory>
    requires may { may_step (state_after past.old.items) me request ≡ true }
    requires none { is_listing (state_after past.old.items) me ≡ false }
    requires plain { is_listing_request request ≡ false }
    requires fallible { fails ≡ true → is_fallible request ≡ true }
    ensures reply { IfOk result (λ reply. reply ≡ answer_or_failure fails (state_after past.old.items) me request) }
    ensures grown { IfOk result (λ reply. past.new.items ≡ past.old.items ++ event me request reply ∷ []) }
    ensures run { OnOk result (IsRun past.new.items) }
    ensures local { IfOk result (λ reply. local_of own.new ≡ local_replied (local_of own.old) request reply) }
    ensures room { OnOk result (vec_len own.new.held + 1 ≤ past.new.spare) }
    ensures same { OnErr result (past.new.items ≡ past.old.items) }
    ensures kept { OnErr result (past.old.spare ≤ past.new.spare) }
    ensures own_same { OnErr result (local_of own.new ≡ local_of own.old) }
    ensures own_len { OnErr result (vec_len own.new.held ≡ vec_len own.old.held) }
{
    own.held.reserve(1)?;
    let more = own.held.len().checked_add(3).ok_or(NoMemory)?;
    past.reserve(more)?;
    let reply = reply_to(past, me, fails, &request)?;
    let answer = reply.copy()?;
    let brought = past.bring(me, &request, &reply)?;
    own.note(&request, &reply);
    past.add(
        Event {
            process: me,
            request,
            reply,
        },
        brought,
    );
    Ok(answer)
}

/// One call that is no listing: the steps that are due come, and then its own. Where memory runs out,
/// some of those came, the first ones, and the others are still due.
pub fn one_step(
    past: &mut Past,
    own: &mut LocalView,
    pending: &mut Vec<Planned>,
    me: u32,
    calls: u64,
    fails: bool,
    request: Request,
) -> Result<Reply, NoMemory>
    requires may { may_step (state_after past.old.items) me request ≡ true }
    requires none { is_listing (state_after past.old.items) me ≡ false }
    requires plain { is_listing_request request ≡ false }
    requires fallible { fails ≡ true → is_fallible request ≡ true }
    ensures reply { IfOk result (λ reply. reply ≡ answer_or_failure fails (state_after (with_steps me past.old.items (due (calls + 1) false pending.old.items))) me request) }
    ensures grown { IfOk result (λ reply. past.new.items ≡ with_steps me past.old.items (due (calls + 1) false pending.old.items) ++ event me request reply ∷ []) }
    ensures steps { OnOk result (pending.new.items ≡ not_due (calls + 1) false pending.old.items) }
    ensures run { OnOk result (IsRun past.new.items) }
    ensures local { IfOk result (λ reply. local_of own.new ≡ local_replied (local_of own.old) request reply) }
    ensures room { OnOk result (vec_len own.new.held + 1 ≤ past.new.spare) }
    ensures interlude { OnErr result (Interlude me past.old.items past.new.items) }
    ensures first { OnErr result (with_steps me past.new.items (due (calls + 1) false pending.new.items) ≡ with_steps me past.old.items (due (calls + 1) false pending.old.items)) }
    ensures later { OnErr result (not_due (calls + 1) false pending.new.items ≡ not_due (calls + 1) false pending.old.items) }
    ensures kept { OnErr result (past.old.spare ≤ past.new.spare) }
    ensures own_same { OnErr result (local_of own.new ≡ local_of own.old) }
    ensures own_len { OnErr result (vec_len own.new.held ≡ vec_len own.old.held) }
{
    others_step(past, me, pending, calls, false)?;
    own_step(past, own, me, fails, request)
}

/// A listing begins, and there is room for its end. Where memory runs out, nothing has changed.
pub fn begin_listing(past: &mut Past, me: u32, request: &Request) -> Result<(), NoMemory>
    requires may { may_step (state_after past.old.items) me request.now ≡ true }
    requires asks { is_listing_request request.now ≡ true }
    requires none { is_listing (state_after past.old.items) me ≡ false }
    ensures grown { OnOk result (past.new.items ≡ past.old.items ++ event me request.now Reply.Begun ∷ []) }
    ensures about { OnOk result (is_about_open (state_after past.new.items) me request.now ≡ true) }
    ensures run { OnOk result (IsRun past.new.items) }
    ensures room { OnOk result (past.old.spare + 1 ≤ past.new.spare) }
    ensures same { OnErr result (past.new.items ≡ past.old.items) }
    ensures kept { OnErr result (past.old.spare ≤ past.new.spare) }
{
    past.reserve_more(2)?;
    let brought = past.bring(me, request, &Reply::Begun)?;
    let request = request.copy()?;
    past.add(
        Event {
            process: me,
            request,
            reply: Reply::Begun,
        },
        brought,
    );
    Ok(())
}

/// A listing begins after the steps that are due. Where memory runs out, some of those came, the first
/// ones, and the others are still due.
pub fn begin_step(
    past: &mut Past,
    pending: &mut Vec<Planned>,
    me: u32,
    calls: u64,
    request: &Request,
) -> Result<(), NoMemory>
    requires may { may_step (state_after past.old.items) me request.now ≡ true }
    requires asks { is_listing_request request.now ≡ true }
    requires none { is_listing (state_after past.old.items) me ≡ false }
    ensures grown { OnOk result (past.new.items ≡ with_steps me past.old.items (due (calls + 1) true pending.old.items) ++ event me request.now Reply.Begun ∷ []) }
    ensures steps { OnOk result (pending.new.items ≡ not_due (calls + 1) true pending.old.items) }
    ensures about { OnOk result (is_about_open (state_after past.new.items) me request.now ≡ true) }
    ensures run { OnOk result (IsRun past.new.items) }
    ensures room { OnOk result (past.old.spare + 1 ≤ past.new.spare) }
    ensures interlude { OnErr result (Interlude me past.old.items past.new.items) }
    ensures first { OnErr result (with_steps me past.new.items (due (calls + 1) true pending.new.items) ≡ with_steps me past.old.items (due (calls + 1) true pending.old.items)) }
    ensures later { OnErr result (not_due (calls + 1) true pending.new.items ≡ not_due (calls + 1) true pending.old.items) }
    ensures kept { OnErr result (past.old.spare ≤ past.new.spare) }
{
    others_step(past, me, pending, calls, true)?;
    begin_listing(past, me, request)
}

// What a listing is answered, for its event and for the caller.
fn end_of(past: &Past, me: u32, fails: bool, came: bool) -> Result<(Reply, Reply), NoMemory>
    ensures arrived { OnOk result (came ≡ true) }
    ensures same { IfOk result (λ both. both.0 ≡ both.1) }
    ensures reply { IfOk result (λ both. both.1 ≡ cond fails (Reply.Refused DirError.Failed 0) (listing_answer (state_after past.now.items) me)) }
{
    if !came {
        return Err(NoMemory);
    }
    if fails {
        let refused = Reply::Refused {
            error: DirError::Failed,
            left: 0,
        };
        return Ok((refused.copy()?, refused));
    }
    let reply = past.listing_answer(me)?;
    Ok((reply.copy()?, reply))
}

/// How a listing ended: with what answer, and whether memory ran out before.
#[derive(Drop)]
pub struct Ended {
    pub reply: Reply,
    pub cut: bool,
}

/// A listing ends, for which there is room: with what it shows or a failure, where the steps inside it
/// came and there is memory for it.
pub fn end_step(past: &mut Past, me: u32, fails: bool, came: bool, request: Request) -> Ended
    requires may { may_step (state_after past.old.items) me request ≡ true }
    requires asks { is_listing_request request ≡ true }
    requires about { is_about_open (state_after past.old.items) me request ≡ true }
    requires room { 0 < past.old.spare }
    ensures grown { past.new ≡ reserved (past.old.items ++ event me request result.reply ∷ []) (past.old.spare - 1) }
    ensures run { IsRun past.new.items }
    ensures ends { is_end_of request result.reply ≡ true }
    ensures cut { result.cut ≡ true → result.reply ≡ Reply.Refused DirError.NoMemory 0 }
    ensures whole { result.cut ≡ false → EndsWhole (state_after past.old.items) me fails came result.reply }
{
    match end_of(past, me, fails, came) {
        Ok((copy, reply)) => {
            past.add_plain(Event {
                process: me,
                request,
                reply: copy,
            });
            Ended { reply, cut: false }
        }
        Err(_) => {
            past.add_plain(Event {
                process: me,
                request,
                reply: refused(),
            });
            Ended {
                reply: refused(),
                cut: true,
            }
        }
    }
}

// Memory ran out.
fn refused() -> Reply
    ensures { result ≡ Reply.Refused DirError.NoMemory 0 }
{
    Reply::Refused {
        error: DirError::NoMemory,
        left: 0,
    }
}
