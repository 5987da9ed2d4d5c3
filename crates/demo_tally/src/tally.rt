// The numbers of a demo, counted over its history.
ghost use Rattle.std.specs.Prelude.{◌≡◌, ◌==◌, ◌≤◌, IfSome, None};
ghost use Rattle.std.specs.List.{count_by};
ghost use Rattle.demo_tally.specs.Tallies.{is_deed_done, is_deed, deeds_in, lines_written, lines_tallied, tally_of};

use crate::tree_file::is_root_listing;
use demo_line::Numbers;
use dir_model::{Area, Event, History, Reply, Request};
use marks::{is_garbage, is_in};

/// What a demo does with images and pods.
#[derive(Clone, Copy, Debug, PartialEq, Eq)]
pub enum Deed {
    /// An image came into the store.
    Stored,
    Prepared,
    Run,
    Deleted,
}

fn is_done(deed: Deed, request: &Request, reply: &Reply) -> bool
    ensures { result ≡ is_deed_done deed request.now reply.now }
{
    match (deed, request, reply) {
        (Deed::Stored, Request::MoveFolder { from, to }, Reply::Done) => {
            is_in(Area::Incoming, from.area) && is_in(Area::Images, to.area)
        }
        (Deed::Prepared, Request::MoveFolder { from, to }, Reply::Done) => {
            is_in(Area::Prepare, from.area) && is_in(Area::Prepared, to.area)
        }
        (Deed::Run, Request::MoveFolder { from, to }, Reply::Done) => {
            is_in(Area::Prepared, from.area) && is_in(Area::Run, to.area)
        }
        (Deed::Deleted, Request::RemoveFolder(spot), Reply::Done) => is_garbage(spot.area),
        _ => false,
    }
}

fn is_deed(deed: Deed, event: &Event) -> bool
    ensures { result ≡ is_deed deed event.now }
{
    is_done(deed, &event.request, &event.reply)
}

/// How often this was done.
pub fn deeds_in(deed: Deed, events: &[Event]) -> usize
    ensures { result ≡ deeds_in deed events.now }
{
    events.iter().filter(|event| is_deed(deed, *event)).count()
}

fn line_feeds(bytes: &[u8]) -> usize
    ensures { result ≡ count_by (λ b. b == 10) bytes.now }
{
    bytes.iter().filter(|byte| **byte == 10).count()
}

fn lines_written(request: &Request, reply: &Reply) -> usize
    ensures { result ≡ lines_written request.now reply.now }
{
    match (request, reply) {
        (Request::AppendIn { inner, piece }, Reply::Done) => {
            if is_root_listing(inner) {
                line_feeds(piece.as_slice())
            } else {
                0
            }
        }
        _ => 0,
    }
}

/// How many entries the renderings of the pods have that were made. None where that is no 64-bit number.
pub fn entries_in(events: &[Event]) -> Option<u64>
    ensures counted { IfSome result (λ count. count ≡ lines_tallied events.now) }
    ensures too_many { result ≡ None → 18446744073709551616 ≤ lines_tallied events.now }
{
    let mut count: u64 = 0;
    'events: for event in events {
        count = count.checked_add(lines_written(&event.request, &event.reply) as u64)?;
    }
    Some(count)
}

/// The numbers of a demo. None where one is no 64-bit number.
pub fn tally_of(history: &History, failed: u64, left: u64) -> Option<Numbers>
    ensures counted { IfSome result (λ numbers. numbers ≡ tally_of history.now.items failed left) }
    ensures too_many { result ≡ None → 18446744073709551616 ≤ lines_tallied history.now.items }
{
    let events = history.as_slice();
    let entries = entries_in(events)?;
    Some(Numbers {
        images: deeds_in(Deed::Stored, events) as u64,
        prepared: deeds_in(Deed::Prepared, events) as u64,
        ran: deeds_in(Deed::Run, events) as u64,
        failed,
        deleted: deeds_in(Deed::Deleted, events) as u64,
        left,
        entries,
    })
}
