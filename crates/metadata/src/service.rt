// The service: so many connections, one after the other.
ghost use Rattle.std.specs.Prelude.{◌≡◌, ◌≤◌, true, None, Ok, Err, IfErr, IfOk, IsErrOf};
ghost use Rattle.dir_model.specs.Causes.{Rose};
ghost use Rattle.dir_model.specs.Local.{IsActive};
ghost use Rattle.pod_report.specs.Requests.{HasNoPodOpen, OnlyAsksFor};
ghost use Rattle.metadata.specs.Looks.{looks_in_run};
ghost use Rattle.metadata.specs.Service.{first_failed_of, IsRefusedLink, ServesNext, ServesUpTo, ServesAt};

use crate::connection::serve_one;
use crate::error::{MetaError, link_fault};
use dir_trait::Dir;
use listener::Listener;
use std::alloc::Global;

fn first_of(first: Result<(), MetaError>, later: Result<(), MetaError>) -> Result<(), MetaError>
    ensures { result ≡ first_failed_of first later }
{
    match first {
        Ok(()) => later,
        Err(error) => Err(error),
    }
}

// Takes the next connection, serves it, and hangs it up. How it was served, which is the listener's fault
// wherever the listener failed at it; or why there was none.
fn serve_next<L: Listener, D: Dir>(
    alloc: Global,
    link: &mut L,
    dir: &mut D,
    key: &[u8; 64],
) -> Result<Result<(), MetaError>, MetaError>
    requires active { IsActive (D.shown dir.old).local }
    requires alone { HasNoPodOpen (D.shown dir.old).local }
    ensures kept { (L.shown link.old).faults ≤ (L.shown link.new).faults }
    ensures only { OnlyAsksFor D.observed looks_in_run (D.shown dir.old) (D.shown dir.new) }
    ensures refused { IfErr result (λ e. IsRefusedLink (Err e)) }
    ensures next_cause { IsErrOf result MetaError.LinkFault → Rose (L.shown link.old).faults (L.shown link.new).faults }
    ensures link_cause { IfOk result (λ served. IsErrOf served MetaError.LinkFault → Rose (L.shown link.old).faults (L.shown link.new).faults) }
    ensures dir_cause { IfOk result (λ served. IsErrOf served MetaError.DirFault → Rose (D.shown dir.old).faults (D.shown dir.new).faults) }
    ensures serves { L.observed ≡ true → D.observed ≡ true → (L.shown link.old).current ≡ None
        → ServesNext key.now result (L.shown link.old) (L.shown link.new) (D.shown dir.old) (D.shown dir.new) }
{
    let before = link.faults();
    match link.next(alloc) {
        Ok(()) => {
            let served = serve_one(alloc, link, dir, key);
            link.hang_up();
            if link.faults() > before {
                return Ok(Err(MetaError::LinkFault));
            }
            Ok(served)
        }
        Err(error) => Err(link_fault(error)),
    }
}

// Takes so many connections, serves each, and answers the first fault.
fn serve_many<L: Listener, D: Dir>(
    alloc: Global,
    link: &mut L,
    dir: &mut D,
    count: u32,
    key: &[u8; 64],
) -> Result<(), MetaError>
    requires active { IsActive (D.shown dir.old).local }
    requires alone { HasNoPodOpen (D.shown dir.old).local }
    ensures kept { (L.shown link.old).faults ≤ (L.shown link.new).faults }
    ensures only { OnlyAsksFor D.observed looks_in_run (D.shown dir.old) (D.shown dir.new) }
    ensures link_cause { IsErrOf result MetaError.LinkFault → Rose (L.shown link.old).faults (L.shown link.new).faults }
    ensures dir_cause { IsErrOf result MetaError.DirFault → Rose (D.shown dir.old).faults (D.shown dir.new).faults }
    ensures serves { L.observed ≡ true → D.observed ≡ true → (L.shown link.old).current ≡ None
        → ServesUpTo key.now count result (L.shown link.old) (L.shown link.new) (D.shown dir.old) (D.shown dir.new) }
{
    let mut first = Ok(());
    'connections: for _connection in 0..count {
        match serve_next(alloc, link, dir, key) {
            Ok(served) => first = first_of(first, served),
            Err(error) => return Err(error),
        }
    }
    first
}

/// Listens at the address, takes so many connections, one after the other, and serves each: its request is
/// read, its reply written, and it is hung up. What fails at one connection ends that connection alone; the
/// first such fault is the answer in the end, and it is the listener's wherever the listener failed at that
/// connection. Where the address or the next connection is refused, that ends it, and is the answer. No lock
/// is held between connections.
///
/// `LinkFault` where the listener failed, `DirFault` where the directory failed, `NoMemory` where memory ran
/// out.
pub fn serve<L: Listener, D: Dir>(
    alloc: Global,
    link: &mut L,
    dir: &mut D,
    address: &str,
    count: u32,
    key: &[u8; 64],
) -> Result<(), MetaError>
    requires active { IsActive (D.shown dir.old).local }
    requires alone { HasNoPodOpen (D.shown dir.old).local }
    ensures kept { (L.shown link.old).faults ≤ (L.shown link.new).faults }
    ensures only { OnlyAsksFor D.observed looks_in_run (D.shown dir.old) (D.shown dir.new) }
    ensures link_cause { IsErrOf result MetaError.LinkFault → Rose (L.shown link.old).faults (L.shown link.new).faults }
    ensures dir_cause { IsErrOf result MetaError.DirFault → Rose (D.shown dir.old).faults (D.shown dir.new).faults }
    ensures serves { L.observed ≡ true → D.observed ≡ true → (L.shown link.old).current ≡ None
        → ServesAt key.now address.now count result (L.shown link.old) (L.shown link.new) (D.shown dir.old) (D.shown dir.new) }
{
    match link.bind(alloc, address) {
        Ok(()) => serve_many(alloc, link, dir, count, key),
        Err(error) => Err(link_fault(error)),
    }
}
