// The file `token`.
ghost use Rattle.std.specs.Prelude.{◌≡◌, IfOk};
ghost use Rattle.pod_plan.specs.PodFiles.{token_text};

use ac_types::{NoMemory, Text};
use std::alloc::Global;

/// What a pod's file `token` holds: the 32 lower-case hex digits of its token.
pub fn token_text(alloc: Global, token: &[u8; 16]) -> Result<Text, NoMemory>
    ensures { IfOk result (λ text. text ≡ token_text token.now) }
{
    let digits = hex::encode(alloc, token.as_slice())?;
    Ok(Text::from_string(digits))
}
