// The tokens of pods in run.
ghost use Rattle.std.specs.Prelude.{◌≡◌, true, IfOk, IfErr, IsErrOf};
ghost use Rattle.std.specs.Str.{bytes_eq};
ghost use Rattle.hex.specs.Hex.{encode_lower};
ghost use Rattle.dir_model.specs.Causes.{Rose};
ghost use Rattle.dir_model.specs.Local.{IsActive};
ghost use Rattle.pod_report.specs.Requests.{OnlyAsksFor};
ghost use Rattle.metadata.specs.Looks.{looks_in_run};
ghost use Rattle.metadata.specs.PodViews.{TellsDigits};

use crate::error::{MetaError, read_fault};
use dir_trait::{Dir, PodId};
use pod_files::read_part;
use std::alloc::Global;

// One byte more than a token's digits.
const MOST_OF_TOKEN: usize = 33;

/// The lower-case hex digits of a token.
pub(crate) fn token_digits(token: &[u8; 16]) -> [u8; 32]
    ensures { result ≡ encode_lower token.now }
{
    let mut digits = [0; 32];
    match hex::encode_to_slice(token.as_slice(), &mut digits) {
        Ok(()) => digits,
        Err(_) => unreachable!(),
    }
}

fn are_same(bytes: &[u8], digits: &[u8]) -> bool
    ensures { result ≡ bytes_eq bytes.now digits.now }
{
    bytes == digits
}

/// Whether the file `token` of the pod has these digits.
pub(crate) fn has_digits<D: Dir>(
    alloc: Global,
    dir: &mut D,
    pod: PodId,
    digits: &[u8],
) -> Result<bool, MetaError>
    requires active { IsActive (D.shown dir.old).local }
    ensures only { OnlyAsksFor D.observed looks_in_run (D.shown dir.old) (D.shown dir.new) }
    ensures cause { IsErrOf result MetaError.DirFault → Rose (D.shown dir.old).faults (D.shown dir.new).faults }
    ensures link { IsErrOf result MetaError.LinkFault → ⊥ }
    ensures tells { IfOk result (λ has. D.observed ≡ true → TellsDigits pod digits.now has (D.shown dir.old) (D.shown dir.new)) }
{
    match read_part(alloc, dir, pod, "token", MOST_OF_TOKEN) {
        Ok(Some(bytes)) => Ok(are_same(&bytes, digits)),
        Ok(None) => Ok(false),
        Err(error) => Err(read_fault(error)),
    }
}
