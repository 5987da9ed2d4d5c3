// The connections of a network are a `Listener`.
ghost use Rattle.std.specs.Prelude.{◌≡◌, ◌++◌, true, IfOk};
ghost use Rattle.host_listener.specs.Facts.{patience, taken_for};

use crate::connection::{receive, send, take_next};
use crate::network::{HostNetwork, Network};
use crate::refusals::{counted, refusal};
use listener::{LinkError, Listener};
use std::alloc::Global;
use std::net::Net;

/// The connections of a network. Neither a read nor a write waits longer than ten seconds for a peer that
/// sends or takes nothing: it fails then. Each failure is counted once.
#[derive(Drop)]
pub struct SystemListener<N: Network + Drop> {
    network: N,
    listening: Option<N::Listening>,
    stream: Option<N::Stream>,
    faults: u64,
}

/// The connections of a host.
pub type HostListener<R> = SystemListener<HostNetwork<R>>;

impl<R: Net + Drop> SystemListener<HostNetwork<R>> {
    /// What hands over connections of the host. It listens nowhere yet, and hasn't failed.
    pub fn new(rt: R) -> HostListener<R>
        ensures { (⟦<HostListener<R> as Listener>⟧.shown result).faults ≡ 0 }
    {
        SystemListener {
            network: HostNetwork::new(rt),
            listening: None,
            stream: None,
            faults: 0,
        }
    }
}

// The next connection of what listens.
fn next_of<N: Network>(
    network: &mut N,
    listening: &Option<N::Listening>,
) -> Result<N::Stream, LinkError>
    ensures { IfOk result (λ stream. N.observed ≡ true → N.facts network.new ≡ N.facts network.old ++ taken_for patience (N.number stream)) }
{
    match listening {
        Some(listening) => take_next(network, listening),
        None => Err(LinkError::Failed),
    }
}

impl<N: Network + Drop> Listener for SystemListener<N> {
    ghost use Rattle.std.specs.Prelude.{◌≡◌, ◌<◌, ◌≤◌, ◌++◌, ◌∷◌, true, false, Ok, [], None, length, take, is_some, option_map, IfOk, OnOk, OnErr, IsErrOf};
    ghost use Rattle.dir_model.specs.Causes.{Rose};
    ghost use Rattle.dir_host.specs.Counts.{Counts};
    ghost use Rattle.host_listener.specs.Facts.{listens, patience, receives, sends, taken_for, told_of_connection};

    ghost observed = { false };

    ghost shown = { λ s. record { faults = s.faults; address = None; past = []; current = None } };

    fn faults(&self) -> u64 {
        self.faults
    }

    fn bind(&mut self, _alloc: Global, address: &str) -> Result<(), LinkError>
        ensures kept { self.old.faults ≤ self.new.faults }
        ensures cause { IsErrOf result LinkError.Failed → Rose self.old.faults self.new.faults }
        ensures counts { Counts LinkError.Failed result self.old.faults self.new.faults }
        ensures listens { OnOk result (N.observed ≡ true → N.facts self.new.network ≡ N.facts self.old.network ++ listens address.now ∷ []) }
        ensures bound { OnOk result (is_some self.new.listening ≡ true) }
        ensures unbound { OnErr result (self.new.listening ≡ self.old.listening) }
        ensures same { self.new.stream ≡ self.old.stream }
    {
        match self.network.listen(address) {
            Ok(listening) => {
                self.listening = Some(listening);
                Ok(())
            }
            Err(error) => Err(counted(&mut self.faults, refusal(error))),
        }
    }

    fn next(&mut self, _alloc: Global) -> Result<(), LinkError>
        ensures kept { self.old.faults ≤ self.new.faults }
        ensures cause { IsErrOf result LinkError.Failed → Rose self.old.faults self.new.faults }
        ensures counts { Counts LinkError.Failed result self.old.faults self.new.faults }
        ensures taken { OnOk result (N.observed ≡ true
            → N.facts self.new.network ≡ N.facts self.old.network ++ told_of_connection (option_map N.number self.new.stream) (taken_for patience)) }
        ensures current { OnOk result (is_some self.new.stream ≡ true) }
        ensures refused { OnErr result (self.new.stream ≡ self.old.stream) }
    {
        match next_of(&mut self.network, &self.listening) {
            Ok(stream) => {
                self.stream = Some(stream);
                Ok(())
            }
            Err(error) => Err(counted(&mut self.faults, error)),
        }
    }

    fn read(&mut self, _alloc: Global, room: &mut [u8]) -> Result<usize, LinkError>
        ensures kept { self.old.faults ≤ self.new.faults }
        ensures cause { IsErrOf result LinkError.Failed → Rose self.old.faults self.new.faults }
        ensures counts { Counts LinkError.Failed result self.old.faults self.new.faults }
        ensures most { IfOk result (λ n. n ≤ length room.old) }
        ensures unconnected { is_some self.old.stream ≡ false → result ≡ Ok 0 }
        ensures received { IfOk result (λ n. N.observed ≡ true
            → N.facts self.new.network ≡ N.facts self.old.network ++ told_of_connection (option_map N.number self.old.stream) (λ number. receives number (take n room.new) ∷ [])) }
        ensures same { option_map N.number self.new.stream ≡ option_map N.number self.old.stream }
    {
        match receive(&mut self.network, &mut self.stream, room) {
            Ok(count) => Ok(count),
            Err(error) => Err(counted(&mut self.faults, error)),
        }
    }

    fn write(&mut self, _alloc: Global, piece: &[u8]) -> Result<usize, LinkError>
        ensures kept { self.old.faults ≤ self.new.faults }
        ensures cause { IsErrOf result LinkError.Failed → Rose self.old.faults self.new.faults }
        ensures counts { Counts LinkError.Failed result self.old.faults self.new.faults }
        ensures most { IfOk result (λ n. n ≤ length piece.now) }
        ensures some { IfOk result (λ n. 0 < length piece.now → 0 < n) }
        ensures unconnected { is_some self.old.stream ≡ false → result ≡ Ok (length piece.now) }
        ensures sent { IfOk result (λ n. 0 < length piece.now → N.observed ≡ true
            → N.facts self.new.network ≡ N.facts self.old.network ++ told_of_connection (option_map N.number self.old.stream) (λ number. sends number (take n piece.now) ∷ [])) }
        ensures same { option_map N.number self.new.stream ≡ option_map N.number self.old.stream }
    {
        if piece.is_empty() {
            return Ok(0);
        }
        match send(&mut self.network, &mut self.stream, piece) {
            Ok(count) => Ok(count),
            Err(error) => Err(counted(&mut self.faults, error)),
        }
    }

    fn hang_up(&mut self)
        ensures kept { self.old.faults ≤ self.new.faults }
        ensures ended { is_some self.new.stream ≡ false }
    {
        self.stream = None;
    }
}
