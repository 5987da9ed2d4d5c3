// A file of a pod in run, as a start needs it.
ghost use Rattle.std.specs.Prelude.{◌≡◌, ◌<◌, ◌≤◌, length, true, IfOk, IfErr, IfSome, IsErrOf, MatchOption};
ghost use Rattle.dir_model.specs.Causes.{Rose};
ghost use Rattle.dir_model.specs.Paths.{is_path};
ghost use Rattle.dir_model.specs.Local.{IsActive};
ghost use Rattle.dir_files.specs.Reads.{ReadsUp, WasMissing};
ghost use Rattle.pod_files.specs.Looks.{OnlyReadsPod};
ghost use Rattle.pod_files.specs.Places.{pod_file};
ghost use Rattle.stage1.specs.LoadRefusals.{IsLoadFailure};

use crate::load_error::{LoadError, read_error};
use dir_trait::{Dir, PodId};
use std::alloc::Global;

/// The bytes of a file of the pod, or its first `most`; none where no such file stands there.
pub(crate) fn read_part<D: Dir>(
    alloc: Global,
    dir: &mut D,
    pod: PodId,
    path: &str,
    most: usize,
) -> Result<Option<Vec<u8>>, LoadError>
    requires active { IsActive (D.shown dir.old).local }
    requires path { is_path path.now ≡ true }
    requires most { 0 < most }
    ensures cause { IsErrOf result LoadError.DirFault → Rose (D.shown dir.old).faults (D.shown dir.new).faults }
    ensures only { OnlyReadsPod D.observed pod (D.shown dir.old) (D.shown dir.new) }
    ensures refusals { IfErr result IsLoadFailure }
    ensures most { IfOk result (λ found. IfSome found (λ bytes. length bytes.items ≤ most)) }
    ensures read { IfOk result (λ found. D.observed ≡ true → MatchOption found
        (WasMissing (pod_file pod path.now) (D.shown dir.old) (D.shown dir.new))
        (λ bytes. ReadsUp (pod_file pod path.now) most (D.shown dir.old) (D.shown dir.new) bytes.items)) }
{
    match pod_files::read_part(alloc, dir, pod, path, most) {
        Ok(found) => Ok(found),
        Err(error) => Err(read_error(error)),
    }
}
