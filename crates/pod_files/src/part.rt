// A file of a pod in run.
ghost use Rattle.std.specs.Prelude.{◌≡◌, ◌<◌, ◌≤◌, length, true, IfOk, IfSome, IsErrOf, MatchOption};
ghost use Rattle.dir_model.specs.Causes.{Rose};
ghost use Rattle.dir_model.specs.Paths.{is_path};
ghost use Rattle.dir_model.specs.Local.{IsActive};
ghost use Rattle.dir_files.specs.Reads.{ReadsUp, WasMissing};
ghost use Rattle.pod_files.specs.Places.{pod_file};
ghost use Rattle.pod_files.specs.Looks.{OnlyReadsPod};

use dir_files::{ReadError, read_file};
use dir_trait::{Area, Dir, PodId, Spot};
use std::alloc::Global;

/// The bytes of the file at a path of the pod's folder in run, or its first `most`; none where no such file
/// stands there. `DirFault` where the directory failed, `NoMemory` where memory ran out.
pub fn read_part<D: Dir>(
    alloc: Global,
    dir: &mut D,
    pod: PodId,
    path: &str,
    most: usize,
) -> Result<Option<Vec<u8>>, ReadError>
    requires active { IsActive (D.shown dir.old).local }
    requires path { is_path path.now ≡ true }
    requires most { 0 < most }
    ensures cause { IsErrOf result ReadError.DirFault → Rose (D.shown dir.old).faults (D.shown dir.new).faults }
    ensures only { OnlyReadsPod D.observed pod (D.shown dir.old) (D.shown dir.new) }
    ensures most { IfOk result (λ found. IfSome found (λ bytes. length bytes.items ≤ most)) }
    ensures read { IfOk result (λ found. D.observed ≡ true → MatchOption found
        (WasMissing (pod_file pod path.now) (D.shown dir.old) (D.shown dir.new))
        (λ bytes. ReadsUp (pod_file pod path.now) most (D.shown dir.old) (D.shown dir.new) bytes.items)) }
{
    read_file(alloc, dir, Spot::of_pod(pod, Area::Run), path, most)
}
