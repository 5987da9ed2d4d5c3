// The manifest of a pod in run.
ghost use Rattle.std.specs.Prelude.{◌≡◌, true, IfOk, IfErr, IsErrOf};
ghost use Rattle.dir_model.specs.Causes.{Rose};
ghost use Rattle.dir_model.specs.Local.{IsActive};
ghost use Rattle.manifests.specs.PodData.{pod_data};
ghost use Rattle.manifests.specs.ManifestRules.{IsPodManifest};
ghost use Rattle.pod_files.specs.Looks.{OnlyReadsPod};
ghost use Rattle.pod_files.specs.Files.{IsManifestOf, IsNoManifest, ReadsPodManifest, ReadsNoPodManifest};
ghost use Rattle.pod_files.specs.Lacks.{IsFileLack};

use crate::error::{FileError, file_error};
use crate::part::read_part;
use ac_types::ReadError;
use dir_trait::{Dir, PodId};
use manifests::{MOST_OF_MANIFEST, PodManifest, read_pod};
use std::alloc::Global;

// The manifest that the bytes are.
fn manifest_of(alloc: Global, bytes: &[u8]) -> Result<PodManifest, FileError>
    ensures ok { IfOk result (λ manifest. IsManifestOf (pod_data manifest) bytes.now) }
    ensures kind { IfOk result (λ manifest. IsPodManifest (pod_data manifest)) }
    ensures fault { IfErr result (IsFileLack (IsNoManifest bytes.now)) }
    ensures never_fails { IsErrOf result FileError.DirFault → ⊥ }
{
    match read_pod(alloc, bytes) {
        Ok(manifest) => Ok(manifest),
        Err(ReadError::Bad(_)) => Err(FileError::Lacking),
        Err(ReadError::NoMemory) => Err(FileError::NoMemory),
    }
}

/// The manifest of the pod in run. `Lacking` where there is no file `pod` in its folder, or it is no pod
/// manifest; `DirFault` where the directory failed, `NoMemory` where memory ran out.
pub fn read_manifest<D: Dir>(
    alloc: Global,
    dir: &mut D,
    pod: PodId,
) -> Result<PodManifest, FileError>
    requires active { IsActive (D.shown dir.old).local }
    ensures cause { IsErrOf result FileError.DirFault → Rose (D.shown dir.old).faults (D.shown dir.new).faults }
    ensures only { OnlyReadsPod D.observed pod (D.shown dir.old) (D.shown dir.new) }
    ensures kind { IfOk result (λ manifest. IsPodManifest (pod_data manifest)) }
    ensures read { IfOk result (λ manifest. D.observed ≡ true → ReadsPodManifest pod (pod_data manifest) (D.shown dir.old) (D.shown dir.new)) }
    ensures lacks { IfErr result (IsFileLack (D.observed ≡ true → ReadsNoPodManifest pod (D.shown dir.old) (D.shown dir.new))) }
{
    match read_part(alloc, dir, pod, "pod", MOST_OF_MANIFEST) {
        Ok(Some(bytes)) => manifest_of(alloc, &bytes),
        Ok(None) => Err(FileError::Lacking),
        Err(error) => Err(file_error(error)),
    }
}
