// One connection of a network.
ghost use Rattle.std.specs.Prelude.{◌≡◌, ◌<◌, ◌≤◌, ◌++◌, ◌∷◌, [], true, false, Ok, length, take, is_some, IfOk, option_map};
ghost use Rattle.host_listener.specs.Facts.{accepts, patience, receives, sends, taken_for, told_of_connection, TellsLinkFact};

use crate::network::Network;
use crate::refusals::{is_passing, refusal};
use listener::LinkError;
use std::io;
use std::io::ErrorKind;

/// How many seconds a read or a write waits for a peer that sends or takes nothing.
pub const PATIENCE: u64 = 10;

// Takes the next connection, and asks again where that may help.
fn accept_patiently<N: Network>(network: &mut N, listening: &N::Listening) -> io::Result<N::Stream>
    ensures { N.observed ≡ true → TellsLinkFact (N.facts network.old) (λ stream. accepts (N.number stream)) result (N.facts network.new) }
{
    'tries: for _ in 0..u64::MAX {
        match network.accept(listening) {
            Ok(stream) => return Ok(stream),
            Err(error) if is_passing(&error) => {}
            Err(error) => return Err(error),
        }
    }
    Err(io::Error::from(ErrorKind::Interrupted))
}

/// Takes the next connection. Neither a read nor a write of it waits longer than our patience.
pub fn take_next<N: Network>(
    network: &mut N,
    listening: &N::Listening,
) -> Result<N::Stream, LinkError>
    ensures { IfOk result (λ stream. N.observed ≡ true → N.facts network.new ≡ N.facts network.old ++ taken_for patience (N.number stream)) }
{
    let stream = match accept_patiently(network, listening) {
        Ok(stream) => stream,
        Err(error) => return Err(refusal(error)),
    };
    if let Err(error) = network.limit_reads(&stream, PATIENCE) {
        return Err(refusal(error));
    }
    match network.limit_writes(&stream, PATIENCE) {
        Ok(()) => Ok(stream),
        Err(error) => Err(refusal(error)),
    }
}

/// Receives a part of what comes, and asks again where that may help.
fn receive_part<N: Network>(
    network: &mut N,
    stream: &mut N::Stream,
    room: &mut [u8],
) -> io::Result<usize>
    ensures most { IfOk result (λ n. n ≤ length room.new) }
    ensures same { N.number stream.new ≡ N.number stream.old }
    ensures recorded { N.observed ≡ true → TellsLinkFact (N.facts network.old) (λ n. receives (N.number stream.old) (take n room.new)) result (N.facts network.new) }
{
    'tries: for _ in 0..u64::MAX {
        match network.receive(stream, room) {
            Ok(count) => return Ok(count),
            Err(error) if is_passing(&error) => {}
            Err(error) => return Err(error),
        }
    }
    Err(io::Error::from(ErrorKind::Interrupted))
}

/// Sends a part of the piece, and asks again where that may help.
fn send_part<N: Network>(network: &mut N, stream: &mut N::Stream, piece: &[u8]) -> io::Result<usize>
    ensures most { IfOk result (λ n. n ≤ length piece.now) }
    ensures same { N.number stream.new ≡ N.number stream.old }
    ensures recorded { N.observed ≡ true → TellsLinkFact (N.facts network.old) (λ n. sends (N.number stream.old) (take n piece.now)) result (N.facts network.new) }
{
    'tries: for _ in 0..u64::MAX {
        match network.send(stream, piece) {
            Ok(count) => return Ok(count),
            Err(error) if is_passing(&error) => {}
            Err(error) => return Err(error),
        }
    }
    Err(io::Error::from(ErrorKind::Interrupted))
}

/// Receives a part of what comes of the current connection, where there is one; else nothing.
pub fn receive<N: Network>(
    network: &mut N,
    stream: &mut Option<N::Stream>,
    room: &mut [u8],
) -> Result<usize, LinkError>
    ensures most { IfOk result (λ n. n ≤ length room.new) }
    ensures unconnected { is_some stream.old ≡ false → result ≡ Ok 0 }
    ensures same { option_map N.number stream.new ≡ option_map N.number stream.old }
    ensures recorded { IfOk result (λ n. N.observed ≡ true
        → N.facts network.new ≡ N.facts network.old ++ told_of_connection (option_map N.number stream.old) (λ number. receives number (take n room.new) ∷ [])) }
{
    match stream {
        Some(stream) => match receive_part(network, stream, room) {
            Ok(count) => Ok(count),
            Err(error) => Err(refusal(error)),
        },
        None => Ok(0),
    }
}

/// Sends a part of the piece, which isn't empty, to the current connection, where there is one: at least one
/// byte. Where there is none, it counts as sent.
pub fn send<N: Network>(
    network: &mut N,
    stream: &mut Option<N::Stream>,
    piece: &[u8],
) -> Result<usize, LinkError>
    requires { 0 < length piece.now }
    ensures most { IfOk result (λ n. n ≤ length piece.now) }
    ensures some { IfOk result (λ n. 0 < n) }
    ensures unconnected { is_some stream.old ≡ false → result ≡ Ok (length piece.now) }
    ensures same { option_map N.number stream.new ≡ option_map N.number stream.old }
    ensures recorded { IfOk result (λ n. N.observed ≡ true
        → N.facts network.new ≡ N.facts network.old ++ told_of_connection (option_map N.number stream.old) (λ number. sends number (take n piece.now) ∷ [])) }
{
    match stream {
        Some(stream) => match send_part(network, stream, piece) {
            Ok(0) => Err(LinkError::Failed),
            Ok(count) => Ok(count),
            Err(error) => Err(refusal(error)),
        },
        None => Ok(piece.len()),
    }
}
