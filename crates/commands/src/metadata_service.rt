// The command `metadata-service`.
ghost use Rattle.std.specs.Prelude.{◌≡◌, ◌≤◌, true, None, IfErr, IsErrOf};
ghost use Rattle.dir_model.specs.Causes.{Rose};
ghost use Rattle.dir_trait.specs.Local.{IsActive};
ghost use Rattle.metadata.specs.Looks.{looks_in_run};
ghost use Rattle.pod_report.specs.Requests.{HasNoPodOpen, OnlyAsksFor};
ghost use Rattle.commands.specs.MetadataService.{service_refusal, service_refusals, service_outcome, PrintsNothing, ServesAs};

use command_outcomes::{Output, Refusal};
use dir_trait::Dir;
use listener::Listener;
use metadata::{MetaError, serve};
use std::alloc::Global;

fn service_refusal(error: MetaError) -> Refusal
    ensures { result ≡ service_refusal error }
{
    match error {
        MetaError::LinkFault => Refusal::LinkFault,
        MetaError::DirFault => Refusal::DirFault,
        MetaError::NoMemory => Refusal::NoMemory,
    }
}

fn service_outcome(alloc: Global, served: Result<(), MetaError>) -> Result<Output, Refusal>
    ensures { result ≡ service_outcome served }
{
    match served {
        Ok(()) => Ok(Output::new(alloc)),
        Err(error) => Err(service_refusal(error)),
    }
}

/// Listens at the address, and serves so many connections, one after the other, each with the key by which
/// it signs: the request is read, the reply of the pod that its token names is written, and it is hung up.
/// Prints nothing. No handle of this process is open on the lock of a pod before, and none is afterwards.
///
/// `LinkFault` where the address or the next connection is refused, or the listener failed at a connection,
/// `DirFault` where the directory failed at one: the first of these; what fails at one connection ends that
/// connection alone.
pub fn metadata_service<L: Listener, D: Dir>(
    alloc: Global,
    address: &str,
    count: u32,
    key: &[u8; 64],
    dir: &mut D,
    listener: &mut L,
) -> Result<Output, Refusal>
    requires active { IsActive (D.shown dir.old).local }
    requires alone { HasNoPodOpen (D.shown dir.old).local }
    ensures kept { (L.shown listener.old).faults ≤ (L.shown listener.new).faults }
    ensures only { OnlyAsksFor D.observed looks_in_run (D.shown dir.old) (D.shown dir.new) }
    ensures link_cause { IsErrOf result Refusal.LinkFault → Rose (L.shown listener.old).faults (L.shown listener.new).faults }
    ensures cause { IsErrOf result Refusal.DirFault → Rose (D.shown dir.old).faults (D.shown dir.new).faults }
    ensures refusals { IfErr result (λ r. service_refusals r ≡ true) }
    ensures silent { PrintsNothing result }
    ensures serves { L.observed ≡ true → D.observed ≡ true → (L.shown listener.old).current ≡ None
        → ServesAs key.now address.now count result (L.shown listener.old) (L.shown listener.new) (D.shown dir.old) (D.shown dir.new) }
{
    let served = serve(alloc, listener, dir, address, count, key);
    service_outcome(alloc, served)
}
