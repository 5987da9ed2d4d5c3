// Why an app can't be started.
ghost use Rattle.std.specs.Prelude.{◌≡◌};

use ac_types::{NoMemory, Text};

/// Why an app can't be started.
#[derive(Drop)]
pub enum LaunchError {
    /// No program is found for this word, which is empty where the app has none.
    NoProgram(Text),
    /// Memory ran out.
    NoMemory,
}

pub(crate) fn no_memory(_error: NoMemory) -> LaunchError
    ensures { result ≡ LaunchError.NoMemory }
{
    LaunchError::NoMemory
}
