// The token of a pod in run.
ghost use Rattle.std.specs.Prelude.{◌≡◌, true, IfOk, IfErr, IsErrOf};
ghost use Rattle.std.specs.List.{list_all};
ghost use Rattle.dir_model.specs.Causes.{Rose};
ghost use Rattle.dir_model.specs.Local.{IsActive};
ghost use Rattle.pod_files.specs.Looks.{OnlyReadsPod};
ghost use Rattle.pod_files.specs.Files.{is_digit, is_token, IsTokenOf, IsNoToken, ReadsToken, ReadsNoToken};
ghost use Rattle.pod_files.specs.Lacks.{IsFileLack};

use crate::error::{FileError, file_error};
use crate::part::read_part;
use ac_types::Text;
use dir_trait::{Dir, PodId};
use std::alloc::Global;
use std::str;

// One byte more than a token.
const MOST_OF_TOKEN: usize = 33;

fn is_digit(byte: u8) -> bool
    ensures { result ≡ is_digit byte }
{
    (b'0'..=b'9').contains(&byte) || (b'a'..=b'f').contains(&byte)
}

fn are_digits(bytes: &[u8]) -> bool
    ensures { result ≡ list_all is_digit bytes.now }
{
    bytes.iter().all(|byte| is_digit(*byte))
}

// Whether the bytes are 32 lower-case hex digits.
fn is_token(bytes: &[u8]) -> bool
    ensures { result ≡ is_token bytes.now }
{
    bytes.len() == 32 && are_digits(bytes)
}

// The token that the bytes are.
fn token_of(alloc: Global, bytes: &[u8]) -> Result<Text, FileError>
    ensures ok { IfOk result (λ token. IsTokenOf token bytes.now) }
    ensures fault { IfErr result (IsFileLack (IsNoToken bytes.now)) }
    ensures never_fails { IsErrOf result FileError.DirFault → ⊥ }
{
    if !is_token(bytes) {
        return Err(FileError::Lacking);
    }
    match str::from_utf8(bytes) {
        Ok(text) => match Text::of(alloc, text) {
            Ok(token) => Ok(token),
            Err(_) => Err(FileError::NoMemory),
        },
        Err(_) => unreachable!(),
    }
}

/// The token of the pod in run. `Lacking` where there is no file `token` in its folder, or it isn't 32
/// lower-case hex digits; `DirFault` and `NoMemory` as for the manifest.
pub fn read_token<D: Dir>(alloc: Global, dir: &mut D, pod: PodId) -> Result<Text, FileError>
    requires active { IsActive (D.shown dir.old).local }
    ensures cause { IsErrOf result FileError.DirFault → Rose (D.shown dir.old).faults (D.shown dir.new).faults }
    ensures only { OnlyReadsPod D.observed pod (D.shown dir.old) (D.shown dir.new) }
    ensures read { IfOk result (λ token. D.observed ≡ true → ReadsToken pod token (D.shown dir.old) (D.shown dir.new)) }
    ensures lacks { IfErr result (IsFileLack (D.observed ≡ true → ReadsNoToken pod (D.shown dir.old) (D.shown dir.new))) }
{
    match read_part(alloc, dir, pod, "token", MOST_OF_TOKEN) {
        Ok(Some(bytes)) => token_of(alloc, &bytes),
        Ok(None) => Err(FileError::Lacking),
        Err(error) => Err(file_error(error)),
    }
}
