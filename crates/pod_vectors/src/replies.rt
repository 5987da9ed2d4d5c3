// The replies of the service, as they are written.
ghost use Rattle.std.specs.Prelude.{◌<◌, IfSome};
ghost use Rattle.metadata_reply.specs.Views.{view_data, IsWholeView};

use crate::requests::{PIECES, request_in};
use ac_types::NoMemory;
use metadata_reply::{PodView, Reply, answer, reply_bytes, token_of};
use metadata_request::Request;
use scripts::Page;
use std::alloc::Global;

/// A pod that runs with its token, as the service found it, and the service's key.
#[derive(Drop)]
pub struct Found<'a> {
    pub token: &'a [u8; 16],
    pub view: &'a PodView,
    pub key: &'a [u8; 64],
}

// The reply to a request. Only where the target names its token the pod is the one that was found.
fn reply_to(alloc: Global, request: &Request, found: &Found) -> Result<Reply, NoMemory>
    requires { IsWholeView (view_data found.now.view.now) }
{
    let is_found = token_of(request.target.as_str().as_bytes()) == Some(*found.token);
    if is_found {
        answer(alloc, request, Some(found.view), found.key)
    } else {
        answer(alloc, request, None, found.key)
    }
}

fn print_reply(page: &mut Page, reply: &Reply) {
    match reply_bytes(page.alloc(), reply) {
        Ok(text) => page.put(text.as_str()),
        Err(_) => page.no_memory(),
    }
}

fn print_reply_to(page: &mut Page, request: &Request, found: &Found)
    requires { IsWholeView (view_data found.now.view.now) }
{
    match reply_to(page.alloc(), request, found) {
        Ok(reply) => print_reply(page, &reply),
        Err(_) => page.no_memory(),
    }
}

// What is written to a connection whose input comes in pieces of at most so many bytes.
fn written(page: &mut Page, input: &[u8], most: usize, found: &Found) -> String
    requires most { 0 < most }
    requires whole { IsWholeView (view_data found.now.view.now) }
{
    match request_in(page, input, most) {
        Some(request) => print_reply_to(page, &request, found),
        None => print_reply(page, &Reply::refused(page.alloc(), 400)),
    }
    page.take()
}

/// What is written to a connection with this input: each line with `\r` at its end. Says so where the same
/// input in smaller pieces is answered otherwise.
pub fn written_answer(page: &mut Page, input: &[u8], found: &Found)
    requires { IsWholeView (view_data found.now.view.now) }
{
    let whole = written(page, input, 20_000, found);
    let mut others = false;
    for most in PIECES {
        let other = written(page, input, most.max(1), found);
        others = others || other.as_str() != whole.as_str();
    }
    if let Some(text) = page.made(whole.replace(page.alloc(), "\r\n", "\\r\n")) {
        page.put(text.as_str());
    }
    if others {
        page.put("\nanother in smaller pieces");
    }
}
