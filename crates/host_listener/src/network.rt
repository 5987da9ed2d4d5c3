// What a network is asked for: one call of std each.
ghost use Rattle.std.specs.Prelude.{◌≡◌, ◌≤◌, ◌*◌, ℕ, List, Bool, true, length, take, IfOk};
ghost use Rattle.std.specs.Duration.{as_nanos};
ghost use Rattle.host_listener.specs.Facts.{LinkFact, listens, accepts, limits_reads, limits_writes, receives, sends, TellsLinkFact};

use std::io;
use std::io::{Read, Write};
use std::net::{Net, OpenListener, OpenStream, TcpListener};
use std::time::Duration;

/// A network. Each success is one fact that it tells.
pub trait Network {
    ghost use Rattle.host_listener.specs.Facts.{LinkFact};

    /// Whether its answers are observed. A host observes none.
    ghost observed: { Bool };

    /// What it told so far, the oldest first.
    ghost facts: { Self → List LinkFact };

    /// Where connections come in.
    type Listening: Drop;

    /// A connection.
    type Stream: Drop;

    /// Which connection it is, by the number that was told when it was taken.
    ghost number: { Self.Stream → ℕ };

    /// Listens at an address.
    fn listen(&mut self, address: &str) -> io::Result<Self::Listening>
        ensures recorded { observed ≡ true → TellsLinkFact (facts self.old) (λ _. listens address.now) result (facts self.new) };

    /// Takes the next connection, and waits for it.
    fn accept(&mut self, listening: &Self::Listening) -> io::Result<Self::Stream>
        ensures recorded { observed ≡ true → TellsLinkFact (facts self.old) (λ stream. accepts (number stream)) result (facts self.new) };

    /// Lets no read of the connection wait longer.
    fn limit_reads(&mut self, stream: &Self::Stream, seconds: u64) -> io::Result<()>
        ensures recorded { observed ≡ true → TellsLinkFact (facts self.old) (λ _. limits_reads (number stream.now) seconds) result (facts self.new) };

    /// Lets no write to the connection wait longer.
    fn limit_writes(&mut self, stream: &Self::Stream, seconds: u64) -> io::Result<()>
        ensures recorded { observed ≡ true → TellsLinkFact (facts self.old) (λ _. limits_writes (number stream.now) seconds) result (facts self.new) };

    /// Fills the room from its start with what comes, and answers how many bytes: none at the end.
    fn receive(&mut self, stream: &mut Self::Stream, room: &mut [u8]) -> io::Result<usize>
        ensures most { IfOk result (λ n. n ≤ length room.new) }
        ensures same { number stream.new ≡ number stream.old }
        ensures recorded { observed ≡ true → TellsLinkFact (facts self.old) (λ n. receives (number stream.old) (take n room.new)) result (facts self.new) };

    /// Sends the piece from its start, and answers how many of its bytes.
    fn send(&mut self, stream: &mut Self::Stream, piece: &[u8]) -> io::Result<usize>
        ensures most { IfOk result (λ n. n ≤ length piece.now) }
        ensures same { number stream.new ≡ number stream.old }
        ensures recorded { observed ≡ true → TellsLinkFact (facts self.old) (λ n. sends (number stream.old) (take n piece.now)) result (facts self.new) };
}

/// The network of a host.
#[derive(Drop)]
pub struct HostNetwork<R: Net + Drop> {
    rt: R,
}

impl<R: Net + Drop> HostNetwork<R> {
    /// That of the host that this runs on.
    pub fn new(rt: R) -> HostNetwork<R> {
        HostNetwork { rt }
    }
}

// A wait of so many seconds.
fn wait(seconds: u64) -> Duration
    ensures { as_nanos result ≡ seconds * 1_000_000_000 }
{
    Duration::from_secs(seconds)
}

impl<R: Net + Drop> Network for HostNetwork<R> {
    ghost use Rattle.std.specs.Prelude.{false, []};

    ghost observed = { false };

    ghost facts = { λ _. [] };

    type Listening = R::Listener;

    type Stream = R::Stream;

    ghost number = { λ _. 0 };

    fn listen(&mut self, address: &str) -> io::Result<R::Listener> {
        TcpListener::bind(&self.rt, address)
    }

    fn accept(&mut self, listening: &R::Listener) -> io::Result<R::Stream> {
        match listening.accept() {
            Ok((stream, _peer)) => Ok(stream),
            Err(error) => Err(error),
        }
    }

    fn limit_reads(&mut self, stream: &R::Stream, seconds: u64) -> io::Result<()> {
        stream.set_read_timeout(Some(wait(seconds)))
    }

    fn limit_writes(&mut self, stream: &R::Stream, seconds: u64) -> io::Result<()> {
        stream.set_write_timeout(Some(wait(seconds)))
    }

    fn receive(&mut self, stream: &mut R::Stream, room: &mut [u8]) -> io::Result<usize> {
        stream.read(room)
    }

    fn send(&mut self, stream: &mut R::Stream, piece: &[u8]) -> io::Result<usize> {
        stream.write(piece)
    }
}
