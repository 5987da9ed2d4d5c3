// What a failure of the network means for a listener.
ghost use Rattle.std.specs.Prelude.{◌≡◌, ◌≤◌, ◌≢◌};
ghost use Rattle.std.specs.IoError.{error_kind};
ghost use Rattle.dir_model.specs.Causes.{Rose};
ghost use Rattle.dir_host.specs.Counts.{CountsRefusal};
ghost use Rattle.host_listener.specs.Refusals.{link_error, is_passing};

use listener::LinkError;
use std::io;
use std::io::ErrorKind;

/// A failure of the network.
pub fn refusal(error: io::Error) -> LinkError
    ensures { result ≡ link_error (error_kind error) }
{
    match error.kind() {
        ErrorKind::OutOfMemory => LinkError::NoMemory,
        _ => LinkError::Failed,
    }
}

/// Whether asking once more may help: a signal came between, or a peer gave up before it was taken.
pub fn is_passing(error: &io::Error) -> bool
    ensures { result ≡ is_passing (error_kind error.now) }
{
    match error.kind() {
        ErrorKind::Interrupted | ErrorKind::ConnectionAborted => true,
        _ => false,
    }
}

/// Counts a failure, and hands the refusal on.
pub fn counted(faults: &mut u64, error: LinkError) -> LinkError
    ensures same { result ≡ error }
    ensures kept { faults.old ≤ faults.new }
    ensures cause { result ≡ LinkError.Failed → Rose faults.old faults.new }
    ensures counts { CountsRefusal LinkError.Failed result faults.old faults.new }
{
    if error == LinkError::Failed {
        *faults = faults.saturating_add(1);
    }
    error
}
