// The token of a pod in run, as a start needs it.
ghost use Rattle.std.specs.Prelude.{◌≡◌, true, IfOk, IfErr, IsErrOf};
ghost use Rattle.dir_model.specs.Causes.{Rose};
ghost use Rattle.dir_model.specs.Local.{IsActive};
ghost use Rattle.stage1.specs.AppPlaces.{told_path};
ghost use Rattle.pod_files.specs.Looks.{OnlyReadsPod};
ghost use Rattle.pod_files.specs.Places.{token_name};
ghost use Rattle.pod_files.specs.Files.{ReadsToken, ReadsNoToken};
ghost use Rattle.stage1.specs.LoadRefusals.{IsDamageFor};

use crate::load_error::{LoadError, damaged};
use ac_types::Text;
use dir_trait::{Dir, PodId};
use pod_files::FileError;
use std::alloc::Global;

/// The token of the pod. `Damaged` where there is no file `token` in its folder, or it isn't 32 lower-case
/// hex digits; `DirFault` and `NoMemory` as for the manifest.
pub(crate) fn read_token<D: Dir>(alloc: Global, dir: &mut D, pod: PodId) -> Result<Text, LoadError>
    requires active { IsActive (D.shown dir.old).local }
    ensures cause { IsErrOf result LoadError.DirFault → Rose (D.shown dir.old).faults (D.shown dir.new).faults }
    ensures only { OnlyReadsPod D.observed pod (D.shown dir.old) (D.shown dir.new) }
    ensures read { IfOk result (λ token. D.observed ≡ true → ReadsToken pod token (D.shown dir.old) (D.shown dir.new)) }
    ensures lacks { IfErr result (IsDamageFor (told_path pod token_name) (D.observed ≡ true → ReadsNoToken pod (D.shown dir.old) (D.shown dir.new))) }
{
    match pod_files::read_token(alloc, dir, pod) {
        Ok(token) => Ok(token),
        Err(FileError::Lacking) => Err(damaged(alloc, pod, "token")),
        Err(FileError::DirFault) => Err(LoadError::DirFault),
        Err(FileError::NoMemory) => Err(LoadError::NoMemory),
    }
}
