// Requests as they are read from connections whose input comes in pieces.
ghost use Rattle.std.specs.Prelude.{◌<◌};

use listener::{LinkError, Listener};
use memory_listener::MemoryListener;
use metadata_request::{Body, Request, read_request};
use scripts::Page;
use std::alloc::Global;

fn asked(alloc: Global, input: &[u8], most: usize) -> Result<Option<Request>, LinkError>
    requires { 0 < most }
{
    let Ok(link) = MemoryListener::new(alloc).connection(alloc, input, most) else {
        return Err(LinkError::NoMemory);
    };
    let mut link = link;
    link.next(alloc)?;
    read_request(alloc, &mut link)
}

/// The request that a connection with this input is, of which one read gives at most so many bytes. A connection
/// in memory never fails but where memory ran out.
pub fn request_in(page: &mut Page, input: &[u8], most: usize) -> Option<Request>
    requires { 0 < most }
{
    match asked(page.alloc(), input, most) {
        Ok(request) => request,
        Err(_) => {
            page.no_memory();
            None
        }
    }
}

fn print_body(page: &mut Page, body: &Body) {
    match body {
        Body::Absent => page.put("without a body"),
        Body::Bad => page.put("with a bad body"),
        Body::Got(text) => page.put_all(&["with the body ", text.as_str()]),
    }
}

fn print_request(page: &mut Page, request: &Request) {
    page.put_all(&[request.method.as_str(), " ", request.target.as_str()]);
    page.put(if request.flavor { " flavored " } else { " " });
    print_body(page, &request.body);
}

fn told(page: &mut Page, input: &[u8], most: usize) -> String
    requires { 0 < most }
{
    match request_in(page, input, most) {
        Some(request) => print_request(page, &request),
        None => page.put("no request"),
    }
    page.take()
}

/// The sizes of the pieces in which an input comes.
pub const PIECES: [usize; 5] = [20_000, 1, 2, 7, 64];

/// What the request is that an input is, and in pieces of which size it is another, if it is.
pub fn request_answer(page: &mut Page, input: &[u8]) {
    let whole = told(page, input, 20_000);
    let mut others = false;
    for most in PIECES {
        let other = told(page, input, most.max(1));
        others = others || other.as_str() != whole.as_str();
    }
    page.put(whole.as_str());
    if others {
        page.put("\nanother in smaller pieces");
    }
}
